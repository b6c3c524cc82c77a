// The script, read a buffer at a time, and run line by line.
ghost use Rattle.std.specs.Prelude.{◌≤◌};

use crate::line::answered;
use fields::{LINE_MAX, room};
use input::{large_buffer, read_full};
use reel::Reel;
use std::io;
use std::io::{Read, Write};

// The bytes of a line that are read already, as far as there is room. No `Vec`: a line could then end with an error of
// memory, which docs/REPLAY.md has no answer for.
#[derive(Drop)]
struct Gathered {
    room: [u8; LINE_MAX + 1],
    count: usize,
    ghost within: { count ≤ 524289 },
}

impl Gathered {
    fn push(&mut self, byte: u8) {
        if self.count <= LINE_MAX {
            self.room[self.count] = byte;
            self.count += 1;
        }
    }

    fn line(&self) -> &[u8] {
        &self.room[..self.count]
    }

    fn clear(&mut self) {
        self.count = 0;
    }
}

// The last line may lack its line feed. What was answered so far is out before more is read.
pub fn run<R: Read, W: Write>(from: &mut R, out: &mut W) -> io::Result<()> {
    let mut gathered = Gathered {
        room: room(0),
        count: 0,
    };
    let mut buffer = large_buffer();
    let mut reel = Reel::empty();
    // a loop must be seen to end: more buffers than any script has
    for _ in 0..u64::MAX {
        out.flush()?;
        let filled = read_full(from, &mut buffer)?;
        if filled == 0 {
            break;
        }
        for byte in &buffer[..filled] {
            if *byte == b'\n' {
                reel = answered(out, reel, gathered.line())?;
                gathered.clear();
            } else {
                gathered.push(*byte);
            }
        }
    }
    answered(out, reel, gathered.line())?;
    Ok(())
}
