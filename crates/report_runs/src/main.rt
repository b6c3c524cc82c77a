// Runs stored blocks: reads from standard input the length of each, 4 bytes with the low one first, and then its bytes,
// and writes its report with an empty line behind it.
#![tactic(auto)]

ghost use Rattle.std.specs.Prelude.{◌≤◌};

use block::BLOCK_MAX;
use input::{filled, read_full};
use report_lines::report;
use std::io;
use std::io::{Read, Write};

// More blocks than are stored, so that the loop has an end.
const BLOCKS_MAX: usize = 65_536;

// One word more than a block can have.
const ROOM_MAX: usize = BLOCK_MAX + 4;

// The report of the next block, of so many bytes.
fn run<R: Read, W: Write>(from: &mut R, out: &mut W, size: usize) -> io::Result<()>
    requires { size ≤ 21168 }
{
    let mut block: [u8; ROOM_MAX] = filled(0);
    let n = read_full(from, &mut block[..size])?;
    out.write_all(report(&block[..n]).bytes())?;
    out.write_all(b"\n")
}

fn main(rt: HostRuntime) -> io::Result<()> {
    let mut from = rt.stdin();
    let mut out = rt.stdout();
    let mut head = [0u8; 4];
    for _ in 0..BLOCKS_MAX {
        let got = read_full(&mut from, &mut head)?;
        if got < 4 {
            return Ok(());
        }
        let size = word::load(&head, 0) as usize;
        if ROOM_MAX < size {
            return Ok(());
        }
        run(&mut from, &mut out, size)?;
    }
    Ok(())
}
