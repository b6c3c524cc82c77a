// Numbers in decimal.
ghost use Rattle.std.specs.Prelude.{◌+◌, ◌≤◌, length};
ghost use Rattle.text.specs.Text.{Put, decimal, signed_decimal};

use magnitude::magnitude;

// The digits before the last one first: the last stands behind them.
fn put_digits(out: &mut [u8], at: usize, n: u64) -> usize
    requires { at + length (decimal n) ≤ length out.old }
    ensures { Put out.old at (decimal n) result out.new }
{
    if n < 10 {
        out[at] = b'0' + n as u8;
        return at + 1;
    }
    let last = put_digits(out, at, n / 10);
    out[last] = b'0' + (n % 10) as u8;
    last + 1
}

pub fn put_decimal(out: &mut [u8], at: usize, n: u64) -> usize
    requires { at + 20 ≤ length out.old }
    ensures put { Put out.old at (decimal n) result out.new }
    ensures upper_bound { result ≤ at + 20 }
{
    put_digits(out, at, n)
}

pub fn put_signed(out: &mut [u8], at: usize, z: i64) -> usize
    requires { at + 20 ≤ length out.old }
    ensures put { Put out.old at (signed_decimal z) result out.new }
    ensures upper_bound { result ≤ at + 20 }
{
    if z < 0 {
        out[at] = b'-';
        return put_digits(out, at + 1, magnitude(z));
    }
    put_digits(out, at, magnitude(z))
}
