// The workshop's view of a knot's readings: a struct over the block's bytes, and thin functions over it.
ghost use Rattle.std.specs.Prelude.{◌≡◌, length};
ghost use Rattle.std.proofs.Math.ListN.{get_elem?};
ghost use Rattle.readings.specs.Machine.{Sees, Views, reading_shown, shows};

use crate::finding::{select, shown_at};
use knot::Refusal;

// From word `start` on every `stride`-th, `count` of them.
#[derive(Clone, Copy)]
pub struct View<'a> {
    bytes: &'a [u8],
    start: u32,
    count: u32,
    stride: u32,
}

impl<'a> View<'a> {
    // Of every n-th reading of knot k of a block; or the cause for which there is none.
    pub fn of(bytes: &'a [u8], k: u32, n: u32) -> Result<View<'a>, Refusal>
        ensures { Views result bytes.now k n }
    {
        let span = select(bytes, k, n)?;
        Ok(View {
            bytes,
            start: span.start,
            count: span.count,
            stride: n,
        })
    }

    // How many readings it shows.
    pub fn count(self) -> u32
        ensures { result ≡ length (shows self.entry) }
    {
        self.count
    }

    // The i-th reading that it shows, counted from 0; none where i is past the last.
    pub fn at(self, i: u32) -> Option<u16>
        ensures { reading_shown result ≡ get_elem? (shows self.entry) i }
    {
        shown_at(self.bytes, self.start, self.count, self.stride, i)
    }
}

// What a view says: how many readings it shows, and the i-th.
#[derive(Clone, Copy)]
pub struct Seen {
    pub count: u32,
    pub shown: Option<u16>,
}

// A view, made and asked, for those who hold none.
pub fn look(bytes: &[u8], k: u32, n: u32, i: u32) -> Result<Seen, Refusal>
    ensures { Sees result bytes.now k n i }
{
    let view = View::of(bytes, k, n)?;
    Ok(Seen {
        count: view.count(),
        shown: view.at(i),
    })
}
