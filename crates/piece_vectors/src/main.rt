// Runs stored pieces: reads cases of 80 bytes from standard input and writes for each a line with its value, trend and
// total. A case is 20 words of 32 bits, low byte first: h, the number of left coefficients, that of right ones, r, and
// 8 left and 8 right coefficients, each a magnitude with 2^31 more where it is negative; those past the numbers are not
// used.
#![tactic(auto)]

mod admit;
mod case;

use input::read_full;
use std::io;

// More cases than are stored, so that the loop has an end.
const CASES_MAX: usize = 65536;

fn main(rt: HostRuntime) -> io::Result<()> {
    let mut from = rt.stdin();
    let mut out = rt.stdout();
    let mut bytes = [0u8; 80];
    for _ in 0..CASES_MAX {
        let got = read_full(&mut from, &mut bytes)?;
        if got < 80 {
            return Ok(());
        }
        case::run(&mut out, &bytes)?;
    }
    Ok(())
}
