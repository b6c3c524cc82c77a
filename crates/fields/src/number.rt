// Numbers in decimal.
ghost use Rattle.std.specs.Prelude.{[], ◌≡◌, ◌≤◌, ◌≤ℤ◌, pos, IfOk, drop, slice_index_or};
ghost use Rattle.std.specs.Str.Parse.{signed_digits_value};

use crate::field::{Fields, Unreadable};

// The greatest number of 32 bits without a sign.
pub const UNSIGNED_MAX: u64 = u32::MAX as u64;

impl Fields<'_> {
    ghost use Rattle.fields.specs.Split.{left};

    // The next number, if it lies within these limits.
    pub fn number(&mut self, least: i64, most: i64) -> Result<i64, Unreadable>
        ensures limits { IfOk result (λ z. (least ≤ℤ z) × (z ≤ℤ most)) }
        ensures value { IfOk result (λ z. z ≡ signed_digits_value 10 (slice_index_or (left self.old) 0 [])) }
        ensures on { left self.new ≡ drop 1 (left self.old) }
    {
        let field = self.field()?;
        // a plus sign, which `parse` takes, is none of ours
        if field.starts_with('+') {
            return Err(Unreadable);
        }
        let z = field.parse::<i64>().map_err(|_| Unreadable)?;
        if least <= z && z <= most {
            Ok(z)
        } else {
            Err(Unreadable)
        }
    }

    // The next number, with no sign, up to a limit.
    pub fn unsigned(&mut self, most: u32) -> Result<u32, Unreadable>
        ensures limit { IfOk result (λ n. n ≤ most) }
        ensures value { IfOk result (λ n. pos n ≡ signed_digits_value 10 (slice_index_or (left self.old) 0 [])) }
        ensures on { left self.new ≡ drop 1 (left self.old) }
    {
        let z = self.number(0, i64::from(most))?;
        Ok(z as u32)
    }

    // The next number with a sign.
    pub fn signed(&mut self) -> Result<i32, Unreadable>
        ensures value { IfOk result (λ z. z ≡ signed_digits_value 10 (slice_index_or (left self.old) 0 [])) }
        ensures on { left self.new ≡ drop 1 (left self.old) }
    {
        let z = self.number(i64::from(i32::MIN), i64::from(i32::MAX))?;
        Ok(z as i32)
    }
}
