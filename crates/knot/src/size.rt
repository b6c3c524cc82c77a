// The size rule, for one list and one gap. Its bounds stay clauses, as docs/READING.md has them; a cast in a product is
// `as`, since its proof is stated so.
ghost use Rattle.std.specs.Prelude.{◌≡◌, ◌+◌, ◌≤◌, length};
ghost use Rattle.rounding.specs.Limits.{gap_max, grade_max};
ghost use Rattle.scans.specs.SizeRule.{first_too_large, products};
ghost use Rattle.knot.specs.Machine.{too_large};

use crate::limits::SIZE_MAX;
use crate::reason::Spot;

// The limit of C_j × h^j, above 0 and below.
const MOST: i64 = SIZE_MAX as i64;

const LEAST: i64 = 0 - MOST;

// What is too large of the list of knot k with the gap h: the first order j of which |C_j| × h^j exceeds 2^28. |C_j| is
// not formed: C_j × h^j is compared on both sides of 0, and of the two comparisons the compiler makes one. The casts in
// the product are `as`, since its proof is stated so.
pub fn list_reason(k: u32, h: u64, list: &[i32]) -> Result<(), Spot>
    requires { (h ≤ gap_max) × (length list.now ≤ grade_max + 1) }
    ensures { too_large result ≡ first_too_large (products k h list.now) }
{
    let mut power: u64 = 1;
    for (j, c) in list.iter().enumerate() {
        let product = power as i64 * *c as i64;
        if MOST < product || product < LEAST {
            return Err(Spot {
                knot: k,
                order: j as u32,
                gap: h as u32,
            });
        }
        power *= h;
    }
    Ok(())
}
