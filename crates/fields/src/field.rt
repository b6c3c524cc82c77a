// What stands on a line: fields, parted by one space each.
ghost use Rattle.std.specs.Prelude.{[], ◌∷◌, ◌≡◌, ◌≢◌, ◌↔◌, length, IfOk, IsTrue, MatchResult};

use input::filled;

// The most bytes of a line that is read, without its line feed.
pub const LINE_MAX: usize = 524_288;

// Room for any line that is read and a byte more, so that a longer one shows.
pub fn room(byte: u8) -> [u8; LINE_MAX + 1]
    ensures { length result ≡ 524289 }
{
    filled(byte)
}

// A field that is not there or not what it should be, or one more than there should be.
#[derive(Clone, Copy, Debug, PartialEq, Eq)]
pub struct Unreadable;

// The fields of a line that are still to be read: what stands from the next one on, nothing behind the last.
#[derive(Clone, Copy)]
pub struct Fields<'a> {
    rest: Option<&'a str>,
}

impl<'a> Fields<'a> {
    ghost use Rattle.fields.specs.Split.{left, split};

    // Of a line; one that is no text has none that can be read.
    pub fn of(line: &'a [u8]) -> Result<Fields<'a>, Unreadable>
        ensures { IfOk result (λ fields. left fields ≡ split line.now) }
    {
        match str::from_utf8(line) {
            Ok(text) => Ok(Fields { rest: Some(text) }),
            Err(_) => Err(Unreadable),
        }
    }

    pub fn is_end(&self) -> bool
        ensures { IsTrue result ↔ left self.now ≡ [] }
    {
        self.rest.is_none()
    }

    // That no field is left.
    pub fn end(&self) -> Result<(), Unreadable>
        ensures { MatchResult result (λ _. left self.now ≡ []) (λ _. left self.now ≢ []) }
    {
        if self.is_end() {
            Ok(())
        } else {
            Err(Unreadable)
        }
    }

    // The next field, which ends at a space or with the line.
    pub fn field(&mut self) -> Result<&'a str, Unreadable>
        ensures { MatchResult result (λ field. left self.old ≡ field.now ∷ left self.new)
            (λ _. (left self.old ≡ []) × (left self.new ≡ [])) }
    {
        let rest = self.rest.ok_or(Unreadable)?;
        match rest.split_once(' ') {
            Some((field, behind)) => {
                self.rest = Some(behind);
                Ok(field)
            }
            None => {
                self.rest = None;
                Ok(rest)
            }
        }
    }
}
