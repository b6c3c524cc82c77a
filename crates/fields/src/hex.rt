// Bytes in hexadecimal, two lower-case digits each; a minus for none. By hand: the kit's `hex` takes upper case too,
// and hands over a `Vec`.
ghost use Rattle.std.specs.Prelude.{◌≡◌, ◌≤◌, ◌<◌, length, IfOk, IfSome, drop};

use crate::field::{Fields, Unreadable};

fn digit(character: u8) -> Option<u8>
    ensures { IfSome result (λ d. d < 16) }
{
    match character {
        b'0'..=b'9' => Some(character - b'0'),
        b'a'..=b'f' => Some(character - b'a' + 10),
        _ => None,
    }
}

// How many bytes the digits of a field have, which are put to the front of the room.
fn put(field: &[u8], room: &mut [u8]) -> Option<usize>
    ensures { IfSome result (λ n. n ≤ length room.new) }
{
    let count = field.len() / 2;
    if field.is_empty() || field.len() % 2 != 0 || room.len() < count {
        return None;
    }
    for (i, pair) in field.chunks_exact(2).enumerate() {
        room[i] = digit(pair[0])? * 16 + digit(pair[1])?;
    }
    Some(count)
}

impl Fields<'_> {
    ghost use Rattle.fields.specs.Split.{left};

    // The next bytes, at the front of the room.
    pub fn bytes<'r>(&mut self, room: &'r mut [u8]) -> Result<&'r [u8], Unreadable>
        ensures within { IfOk result (λ bytes. length bytes.now ≤ length room.old) }
        ensures on { left self.new ≡ drop 1 (left self.old) }
    {
        let field = self.field()?;
        let count = if field == "-" {
            0
        } else {
            put(field.as_bytes(), room).ok_or(Unreadable)?
        };
        Ok(&room[..count])
    }
}
