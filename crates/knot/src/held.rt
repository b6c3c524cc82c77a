// A knot as a reel holds it: plain data.
ghost use Rattle.std.specs.Prelude.{◌≡◌, ◌+◌, ◌-◌, ◌≤◌, length};
ghost use Rattle.rounding.specs.Limits.{grade_max};

use crate::limits::COEFFICIENTS_MAX;
use crate::reason::Spot;
use crate::size::list_reason;

// The coefficients past the grade are free: no promise speaks of them. An array and a grade, since nothing is
// allocated.
#[derive(Clone, Copy)]
pub struct Knot {
    pub position: u16,
    pub grade: u8,
    pub coefficients: [i32; COEFFICIENTS_MAX],
    pub ghost room: { length coefficients ≡ grade_max + 1 },
    pub ghost graded: { grade ≤ grade_max },
}

impl Knot {
    // For the free places of an array of knots.
    pub const FREE: Self = Self {
        position: 0,
        grade: 0,
        coefficients: [0; COEFFICIENTS_MAX],
    };

    ghost use Rattle.rounding.specs.Limits.{gap_max};
    ghost use Rattle.rounding.specs.Size.{Listed};
    ghost use Rattle.scans.specs.Scan.{left_list, right_list, scan_of};
    ghost use Rattle.scans.specs.SizeRule.{first_too_large, products};
    ghost use Rattle.knot.specs.Machine.{scan, too_large};

    // The knot with this list.
    pub fn of(position: u16, list: &[i32]) -> Self
        requires { Listed list.now }
        ensures { scan result ≡ scan_of position list.now }
    {
        let mut coefficients = [0i32; COEFFICIENTS_MAX];
        coefficients[..list.len()].copy_from_slice(list);
        Self {
            position,
            grade: (list.len() - 1) as u8,
            coefficients,
        }
    }

    // Its list: the coefficients up to its grade.
    pub fn list(&self) -> &[i32]
        ensures { result.now ≡ (scan self.now).coefficients }
    {
        &self.coefficients[..usize::from(self.grade) + 1]
    }

    // What is too large of the list that serves the piece on the left of knot k, of h steps. It and the next are two,
    // since their definitions are (`left_list`, `right_list`), which request 8/14 tells apart.
    pub fn left_reason(&self, k: u32, h: u64) -> Result<(), Spot>
        requires { h ≤ gap_max }
        ensures { too_large result ≡ first_too_large (products k h (left_list (scan self.now))) }
    {
        list_reason(k, h, self.list())
    }

    // The same for the piece on its right.
    pub fn right_reason(&self, k: u32, h: u64) -> Result<(), Spot>
        requires { h ≤ gap_max }
        ensures { too_large result ≡ first_too_large (products k h (right_list (scan self.now))) }
    {
        list_reason(k, h, self.list())
    }
}

// The steps from one position to the next.
pub fn gap(from: u16, to: u16) -> u64
    ensures { result ≡ to - from }
{
    u64::from(to.saturating_sub(from))
}
