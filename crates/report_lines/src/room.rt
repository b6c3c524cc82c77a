// A report, and the room for it.
ghost use Rattle.std.specs.Prelude.{◌≤◌};

// More than the longest report: 128 lines of at most 126 bytes and one of at most 47.
const REPORT_MAX: usize = 16_384;

// The report's bytes stand first in the text. Its room has a fixed size, since the program allocates nothing.
#[derive(Clone, Copy)]
pub struct Report {
    pub text: [u8; REPORT_MAX],
    pub length: usize,
    pub ghost within: { length ≤ 16384 },
}

impl Report {
    ghost use Rattle.std.specs.Prelude.{◌≡◌, length, take};
    ghost use Rattle.report_lines.specs.Machine.{room_max};

    // Not `filled` of `input`, which belongs to the programs.
    pub(crate) fn room() -> [u8; REPORT_MAX]
        ensures { length result ≡ room_max }
    {
        [0; REPORT_MAX]
    }

    // The report's bytes.
    pub fn bytes(&self) -> &[u8]
        ensures { result.now ≡ take self.now.length self.now.text }
    {
        &self.text[..self.length]
    }
}
