// The limits of a reel, of the readings beside it, and of the multipliers of a sum, each in one place.
pub const KNOTS_MAX: usize = 129;

// in steps
pub const POSITION_MAX: u32 = 65_535;

pub const GRADE_MAX: usize = 7;

// of one list
pub const COEFFICIENTS_MAX: usize = GRADE_MAX + 1;

// in steps
pub const GAP_MAX: u64 = 16;

// of |C_j| × h^j
pub const SIZE_MAX: u64 = 268_435_456;

// of one knot, in a block
pub const READINGS_MAX: usize = 32;

// of a reel in a sum, of either sign
pub const MULTIPLIER_MAX: u64 = 16;
