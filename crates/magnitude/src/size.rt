// The size of a number, whatever its sign.
ghost use Rattle.std.specs.Prelude.{◌≡◌, nat_abs};

pub fn magnitude(z: i64) -> u64
    ensures { result ≡ nat_abs z }
{
    z.unsigned_abs()
}
