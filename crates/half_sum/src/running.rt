// Document 02, request 2/14: rounds of running sums, in the array that the weights come in. They are step 1 of
// document 01's "Half-sum of grade m against n".
ghost use Rattle.std.specs.Prelude.{◌+◌, ◌*◌, ◌≤◌};
ghost use Rattle.half_sum.specs.Machine.{Room};
ghost use Rattle.hermite.specs.Polynomial.{coefficient};
ghost use Rattle.hermite.specs.RunningSums;
ghost use Rattle.knot_weights.specs.Machine.{Lists, Weights};
ghost use Rattle.rounding.specs.Limits.{grade_max, size_max};

// One round: each entry becomes the sum of the entries up to it.
fn one_round(w: &mut [i64; 8])
    requires { Room 1 w.old }
    ensures { Lists w.new (RunningSums.rounds 1 (coefficient w.old)) }
{
    let mut sum = 0;
    for x in w.iter_mut() {
        sum += *x;
        *x = sum;
    }
}

// Rounds two, four and eight at a time: from one of them to the next the compiler keeps the 8 numbers in registers.
// One function with a const parameter for the count is slower: of its loop the compiler makes a polynomial, and
// `rounds` takes 2,980,865 instructions over the stored pieces in place of 1,990,151.
fn two_rounds(w: &mut [i64; 8])
    requires { Room 2 w.old }
    ensures { Lists w.new (RunningSums.rounds 2 (coefficient w.old)) }
{
    one_round(w);
    one_round(w);
}

fn four_rounds(w: &mut [i64; 8])
    requires { Room 4 w.old }
    ensures { Lists w.new (RunningSums.rounds 4 (coefficient w.old)) }
{
    two_rounds(w);
    two_rounds(w);
}

fn eight_rounds(w: &mut [i64; 8])
    requires { Room 8 w.old }
    ensures { Lists w.new (RunningSums.rounds 8 (coefficient w.old)) }
{
    four_rounds(w);
    four_rounds(w);
}

// So many rounds, at most 9: those of a half-sum at n = 7, and one more for K.
pub fn rounds(count: usize, w: &mut [i64; 8])
    requires { (count ≤ grade_max + 2) × (Weights (7 * size_max) w.old) }
    ensures { Lists w.new (RunningSums.rounds count (coefficient w.old)) }
{
    let mut due = count;
    if 8 <= due {
        eight_rounds(w);
        due -= 8;
    }
    if 4 <= due {
        four_rounds(w);
        due -= 4;
    }
    if 2 <= due {
        two_rounds(w);
        due -= 2;
    }
    if 1 <= due {
        one_round(w);
    }
}
