// Scaling by a fraction, to the nearest, without a division and without a branch. Every scaling of the engine is a call
// of `scaled`. Bounds of a number stay clauses, as docs/READING.md has them.
ghost use Rattle.std.specs.Prelude.{◌≡◌, ◌+◌, ◌*◌, ◌/◌, ◌≤◌, ◌<◌, ◌^◌, ◌-◌};
ghost use Rattle.integer.specs.Within.{Within};
ghost use Rattle.scaling.specs.Divides.{Divides};
ghost use Rattle.rounding.specs.Limits.{gap_max};
ghost use Rattle.rounding.specs.Piece.{position_unit};
ghost use Rattle.rounding.specs.Scaling;
ghost use Rattle.rounding.specs.Scaling.{scaled_times};

use rounding::POSITION_UNIT;

// D = 256 × h, and its reciprocal in parts of 2^64, 2^64 / D + 1, which is 2^56 / h + 1. This is the only division
// that a piece's value or trend makes.
#[derive(Clone, Copy)]
pub struct Divisor {
    pub d: u64,
    reciprocal: u64,
    ghost divides: { Divides d reciprocal },
}

impl Divisor {
    // D of a piece of h steps.
    pub fn of(h: u64) -> Self
        requires { (0 < h) × (h ≤ gap_max) }
        ensures { result.d ≡ position_unit * h }
    {
        Self {
            d: POSITION_UNIT * h,
            reciprocal: 72_057_594_037_927_936 / h + 1,
        }
    }
}

// The upper 64 of the 128 bits of x × y, from the four products of their halves: the compiler makes one multiplication
// of it. A product in `u128` has no columns, which the edits `carry_of_the_columns_lost` and
// `product_of_the_wrong_halves` spoil.
fn high_product(x: u64, y: u64) -> u64
    ensures { result ≡ x * y / 2 ^ 64 }
{
    let x1 = x >> 32;
    let x0 = x & 0xffff_ffff;
    let y1 = y >> 32;
    let y0 = y & 0xffff_ffff;
    let first = x1 * y0 + (x0 * y0 >> 32);
    let second = x0 * y1 + (first & 0xffff_ffff);
    x1 * y1 + (first >> 32) + (second >> 32)
}

// A fraction a/d from 0 to 1, prepared for many scalings: a × 2^32 = whole × d + rest, with a rest below d. The bias is
// a multiple of d that lifts what a scaling divides above 0, and half of d more: what is then rounded down is the
// nearest, halves up.
#[derive(Clone, Copy)]
pub struct Fraction {
    pub a: u64,
    pub d: u64,
    whole: u64,
    rest: u64,
    bias: u64,
    reciprocal: u64,
    ghost divides: { Divides d reciprocal },
    ghost proper: { a ≤ d },
    ghost quotient: { whole * d + rest ≡ a * 2 ^ 32 },
    ghost below: { rest < d },
    ghost biased: { bias ≡ d * 2 ^ 32 + d / 2 },
}

impl Fraction {
    // a/d. Quotient and rest come from the reciprocal, so that no further division is made.
    pub fn of(a: u64, divisor: Divisor) -> Self
        requires { a ≤ divisor.d }
        ensures { (result.a ≡ a) × (result.d ≡ divisor.d) }
    {
        let d = divisor.d;
        let reciprocal = divisor.reciprocal;
        let numerator = a << 32;
        let whole = high_product(numerator, reciprocal);
        Self {
            a,
            d,
            whole,
            rest: numerator - whole * d,
            bias: (d << 32) + (d >> 1),
            reciprocal,
        }
    }
}

// u scaled by a/d. With u = high × 2^32 + low, u × a / d is high × whole + (high × rest + low × a) / d. The bias,
// 2^32 × d + d/2, makes what is divided there a natural below 2^46, which its product with the reciprocal divides
// exactly, and comes off again as 2^32; its d/2 stays, as the half that rounds to the nearest.
pub fn scaled(u: i64, s: Fraction) -> i64
    requires { Within (2 ^ 63 - 1) u }
    ensures { result ≡ Scaling.scaled u s.a s.d }
{
    let high = u >> 32;
    let low = u & 0xffff_ffff;
    let dividend = (high * s.rest as i64 + (low * s.a as i64 + s.bias as i64)) as u64;
    high * s.whole as i64 + (high_product(dividend, s.reciprocal) as i64 - 4_294_967_296)
}

// u scaled by a/d, k times.
pub fn scaled_times(k: usize, u: i64, s: Fraction) -> i64
    requires { Within (2 ^ 63 - 1) u }
    ensures { result ≡ scaled_times k u s.a s.d }
{
    let mut v = u;
    for _ in 0..k {
        v = scaled(v, s);
    }
    v
}
