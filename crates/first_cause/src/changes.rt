// The first cause that refuses a call which puts a knot into the list, or the knot that it puts there.
ghost use Rattle.std.specs.Prelude.{[], ◌<◌, List, length, ℤ};
ghost use Rattle.knot.specs.Machine.{scans};
ghost use Rattle.following.specs.Machine.{CloseAfter, CloseBefore, lying};
ghost use Rattle.first_cause.specs.Machine.{CloseBeside, FindsAppended, FindsBetween, FindsCorrected};

use following::{follow_reason, list_cause, neighbour_position, position_cause, size_reason};
use knot::{Fault, KNOTS_MAX, Knot, Refusal};

// Append after these knots: 2, 3, 4, 5, 6.
pub fn append_cause(knots: &[Knot], position: u32, coefficients: &[i32]) -> Result<Knot, Fault>
    ensures { FindsAppended result (scans knots.now) position coefficients.now }
{
    let count = knots.len();
    if KNOTS_MAX <= count {
        return Err(Refusal::Full.into());
    }
    list_cause(coefficients.len())?;
    let last = knots.last();
    position_cause(neighbour_position(last), position)?;
    let knot = Knot::of(position as u16, coefficients);
    follow_reason(count as u32, last, &knot)?;
    Ok(knot)
}

// Correct of knot k of so many, between the positions of its neighbours, whatever their lists are: 9, 3, then the size
// rule at each gap beside the knot.
pub fn correct_cause(
    k: u32,
    count: usize,
    left: Option<u16>,
    old: u16,
    right: Option<u16>,
    coefficients: &[i32],
) -> Result<Knot, Fault>
    requires { k < count → (CloseBefore (lying left []) old) × (CloseAfter old (lying right [])) }
    ensures { (A B : List ℤ) → FindsBetween result k count (lying left A) old (lying right B)
        coefficients.now }
{
    if count <= k as usize {
        return Err(Refusal::Index.into());
    }
    list_cause(coefficients.len())?;
    let knot = Knot::of(old, coefficients);
    size_reason(k, left, &knot, right)?;
    Ok(knot)
}

// Correct of knot k of these: its place and the positions beside it are those of the list.
pub fn correct_in_list(knots: &[Knot], k: u32, coefficients: &[i32]) -> Result<Knot, Fault>
    requires { k < length knots.now → CloseBeside (scans knots.now) k }
    ensures { FindsCorrected result (scans knots.now) k coefficients.now }
{
    let at = k as usize;
    let old = knots.get(at).ok_or(Refusal::Index)?;
    let left = knots[..at].last();
    let right = knots.get(at + 1);
    correct_cause(
        k,
        knots.len(),
        neighbour_position(left),
        old.position,
        neighbour_position(right),
        coefficients,
    )
}
