// The test program: a script of calls from standard input, one to a line, run on one reel that starts empty. It writes
// an answer for each; docs/REPLAY.md has the lines. What it writes is compared, not proved: it promises that it is safe
// for every script, and of the reel what its type says at every call.
#![tactic(auto)]

mod answers;
mod line;
mod line_error;
mod pair_calls;
mod reel_calls;
mod script;
mod views;

use std::io;
use std::io::{BufWriter, Write};

fn main(rt: HostRuntime) -> io::Result<()> {
    let mut out = BufWriter::new(rt.alloc(), rt.stdout())?;
    script::run(&mut rt.stdin(), &mut out)?;
    out.flush()
}
