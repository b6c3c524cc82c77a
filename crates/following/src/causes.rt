// What refuses a new knot: causes 3 to 5 of the refusal table; and for 6 what is too large, of a knot after the last
// one or between its neighbours.
ghost use Rattle.std.specs.Prelude.{[], ◌≡◌, ◌≤◌, IfSome, List, option_map, ℤ};
ghost use Rattle.scans.specs.SizeRule.{append_products, first_too_large, size_products};
ghost use Rattle.scans.specs.RefusalTable.{first, list_causes, position_causes};
ghost use Rattle.knot.specs.Machine.{refusal, scan, too_large};
ghost use Rattle.following.specs.Machine.{CloseAfter, CloseBefore, lying, neighbour};

use knot::{COEFFICIENTS_MAX, GAP_MAX, Knot, POSITION_MAX, Refusal, Spot, gap};

// The position of a neighbour, which is all that the causes and the size rule of a knot beside it look at.
pub fn neighbour_position(neighbour: Option<&Knot>) -> Option<u16>
    ensures { result ≡ option_map (λ knot. knot.now.position) neighbour.entry }
{
    neighbour.map(|knot| knot.position)
}

// Of a list: 3.
pub fn list_cause(length: usize) -> Result<(), Refusal>
    ensures { refusal result ≡ first (list_causes length) }
{
    if length == 0 {
        return Err(Refusal::List);
    }
    if COEFFICIENTS_MAX < length {
        return Err(Refusal::List);
    }
    Ok(())
}

// Of a position after that of the last knot, whatever its list is: 4, then 5.
pub fn position_cause(last: Option<u16>, position: u32) -> Result<(), Refusal>
    ensures { (A : List ℤ) → refusal result ≡ first (position_causes (lying last A) position) }
{
    if POSITION_MAX < position {
        return Err(Refusal::Position);
    }
    let Some(last) = last else {
        return Ok(());
    };
    let held = u32::from(last);
    if position <= held {
        return Err(Refusal::Position);
    }
    if GAP_MAX < u64::from(position - held) {
        return Err(Refusal::Gap);
    }
    Ok(())
}

// What is too large of knot k between the positions of its neighbours, whatever their lists are: with the left gap,
// then with the right.
pub fn size_reason(k: u32, left: Option<u16>, knot: &Knot, right: Option<u16>) -> Result<(), Spot>
    requires left { CloseBefore (lying left []) knot.now.position }
    requires right { CloseAfter knot.now.position (lying right []) }
    ensures { (A B : List ℤ) → too_large result ≡ first_too_large
        (size_products k (lying left A) (scan knot.now) (lying right B)) }
{
    let position = knot.position;
    match (left, right) {
        (None, None) => knot.left_reason(k, 1),
        (Some(before), None) => knot.left_reason(k, gap(before, position)),
        (None, Some(after)) => knot.right_reason(k, gap(position, after)),
        (Some(before), Some(after)) => {
            knot.left_reason(k, gap(before, position))?;
            knot.right_reason(k, gap(position, after))
        }
    }
}

// Of knot k after the last one: of the held knot with the new gap, then of the new knot.
pub fn follow_reason(k: u32, last: Option<&Knot>, next: &Knot) -> Result<(), Spot>
    requires close { CloseBefore (neighbour last) next.now.position }
    requires after { IfSome last (λ _. 1 ≤ k) }
    ensures { too_large result ≡ first_too_large (append_products k (neighbour last.entry) (scan next.now)) }
{
    if let Some(held) = last {
        held.right_reason(k - 1, gap(held.position, next.position))?;
    }
    size_reason(k, neighbour_position(last), next, None)
}
