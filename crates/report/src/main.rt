// The reel report of a block from standard input.
#![tactic(auto)]

use block::BLOCK_MAX;
use input::read_full;
use report_lines::report;
use std::io;

fn main(rt: HostRuntime) -> io::Result<()> {
    // a byte more than a block can have shows that there are too many
    let mut bytes = [0u8; BLOCK_MAX + 1];
    let n = read_full(&mut rt.stdin(), &mut bytes)?;
    rt.write_all(report(&bytes[..n]).bytes())
}
