// Reading until a buffer is full.
ghost use Rattle.std.specs.Prelude.{◌≡◌, ◌≤◌, ◌<◌, length, replicate, take, IfOk};
ghost use Rattle.std.specs.Io.KnownBytes.{Consumes, IsAtEnd};

use std::io;
use std::io::Read;

// A room for so many bytes, with this one in each place.
pub fn filled<const N: usize>(byte: u8) -> [u8; N]
    ensures { result ≡ replicate N byte }
{
    [byte; N]
}

// 65,536 zeros, for a loop that moves much data.
pub fn large_buffer() -> [u8; 65_536]
    ensures { length result ≡ 65536 }
{
    filled(0)
}

// Reads until the buffer is full or the input ends, and answers how many bytes stand at its start. On an empty buffer
// nothing is read. Bytes that were read before an error are lost.
pub fn read_full<R: Read>(reader: &mut R, buffer: &mut [u8]) -> io::Result<usize>
    ensures within { IfOk result (λ n. n ≤ length buffer.new) }
    ensures bytes { IfOk result (λ n. Consumes (R.remaining reader.old) (R.remaining reader.new) (take n buffer.new)) }
    ensures end { IfOk result (λ n. n < length buffer.new → IsAtEnd (R.remaining reader.new)) }
{
    let mut done = 0;
    // no `read_exact`, which does not say how much stood there before the end
    while done < buffer.len() {
        let n = reader.read(&mut buffer[done..])?;
        if n == 0 {
            break;
        }
        done += n;
    }
    Ok(done)
}
