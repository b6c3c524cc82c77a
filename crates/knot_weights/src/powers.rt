// The weights of a knot for a piece of h steps, in order of j; 0 above the grade. Bounds of h and of lists stay
// clauses, as docs/READING.md has them; a cast in a product is `as`, since its proof is stated so.
ghost use Rattle.std.specs.Prelude.{◌≡◌, ◌+◌, ◌≤◌, length};
ghost use Rattle.hermite.specs.Blend.{right_weights};
ghost use Rattle.hermite.specs.Polynomial.{coefficient};
ghost use Rattle.hermite.specs.Slope;
ghost use Rattle.integer.specs.Within.{Within};
ghost use Rattle.knot_weights.specs.Machine.{Lists, Weights, by_powers};
ghost use Rattle.rounding.specs.Piece.{weight};
ghost use Rattle.rounding.specs.Limits.{gap_max, grade_max, size_max};

// C_j times the powers of a base, h or −h, in one pass. The array is lent: one that is handed back would be copied.
// It is cleared first, whatever it held; where the caller made it of zeros, the compiler clears it once.
fn by_powers(base: i64, c: &[i32], w: &mut [i64; 8])
    requires { (Within gap_max base) × (length c.now ≤ grade_max + 1) }
    ensures { Lists w.new (by_powers base c.now) }
{
    *w = [0; 8];
    let mut power = 1;
    for (j, c_j) in c.iter().enumerate() {
        w[j] = *c_j as i64 * power;
        power *= base;
    }
}

// Left weights, of a left knot: p_j = C_j × h^j.
pub fn weights(h: u64, c: &[i32], w: &mut [i64; 8])
    requires { (h ≤ gap_max) × (length c.now ≤ grade_max + 1) }
    ensures { Lists w.new (weight h c.now) }
{
    by_powers(h as i64, c, w)
}

// Right weights, of a right knot: (−1)^j × q_j = C_j × (−h)^j.
pub fn right_weights(h: u64, c: &[i32], w: &mut [i64; 8])
    requires { (h ≤ gap_max) × (length c.now ≤ grade_max + 1) }
    ensures { Lists w.new (right_weights (weight h c.now)) }
{
    by_powers(-1 * h as i64, c, w)
}

// w'_j = (j+1) × w_(j+1).
pub fn primed(w: &[i64], v: &mut [i64; 8])
    requires { Weights size_max w.now }
    ensures { Lists v.new (Slope.primed (coefficient w.now)) }
{
    *v = [0; 8];
    for j in 0..7 {
        let next = j + 1;
        v[j] = next as i64 * w[next];
    }
}
