// The refusal table: its causes, in its order, and each one's number.
ghost use Rattle.std.specs.Prelude.{◌≡◌, ◌≤◌};
ghost use Rattle.knot.specs.Machine.{Numbers, number, refusal};

#[derive(Clone, Copy)]
pub enum Refusal {
    // of a block: its length, a word's kind, the edition, spare bits, the end count, words missing or over
    Form = 1,
    // a knot count above 129
    Full = 2,
    // coefficient list of length 0 or above 8
    List = 3,
    // position above 65,535 or not above the last
    Position = 4,
    // gap above 16
    Gap = 5,
    // size rule broken
    Size = 6,
    // position before the first or after the last knot
    Outside = 7,
    // fewer than two knots, in a query
    Few = 8,
    // no knot k; or i above j, or no knot j
    Index = 9,
    // output shorter than the block
    Output = 10,
    // a view with n of 0
    Stride = 11,
    // a 33rd reading
    Readings = 12,
    // unlike positions or grades, of two reels
    Unlike = 13,
    // a multiplier outside −16 to 16
    Multiplier = 14,
}

impl Refusal {
    pub fn number(self) -> u32
        ensures { result ≡ number self }
    {
        self as u32
    }

    // The refusal of a number of the table. Not `TryFrom`, which can fail: docs/READING.md has it for numbers of the
    // table.
    pub fn numbered(n: u32) -> Self
        requires { (1 ≤ n) × (n ≤ 14) }
        ensures { number result ≡ n }
    {
        match n {
            1 => Refusal::Form,
            2 => Refusal::Full,
            3 => Refusal::List,
            4 => Refusal::Position,
            5 => Refusal::Gap,
            6 => Refusal::Size,
            7 => Refusal::Outside,
            8 => Refusal::Few,
            9 => Refusal::Index,
            10 => Refusal::Output,
            11 => Refusal::Stride,
            12 => Refusal::Readings,
            13 => Refusal::Unlike,
            _ => Refusal::Multiplier,
        }
    }
}

// The number of what a test finds: that of the refusal; 0 where nothing refuses. No `From`: both types are the
// library's.
pub fn number_of(found: Result<(), Refusal>) -> u32
    ensures { Numbers result (refusal found) }
{
    match found {
        Ok(()) => 0,
        Err(cause) => cause.number(),
    }
}
