// The fields of a word, taken out and put back by shifts and masks: document 01's form.
ghost use Rattle.std.specs.Prelude.{◌≡◌, ◌^◌, ◌<◌};
ghost use Rattle.block.specs.Fields;
ghost use Rattle.block.specs.Fields.{knot_count, header_spare};
ghost use Rattle.block.specs.Fields.{header_word, knot_spare};
ghost use Rattle.block.specs.Fields.{knot_word, coefficient_word, words_before, end_word};
ghost use Rattle.block.specs.Fields.{reading_mark, reading_spare};

// The top two bits.
pub fn kind(word: u32) -> u32
    ensures { result ≡ Fields.kind word }
{
    word >> 30
}

// Of a header: bits 0 to 7.
pub fn knot_count(word: u32) -> u32
    ensures { result ≡ knot_count word }
{
    word & 0xff
}

// Of a header: bits 8 to 15.
pub fn edition(word: u32) -> u32
    ensures { result ≡ Fields.edition word }
{
    (word >> 8) & 0xff
}

// Of a header: bits 16 to 29.
pub fn header_spare(word: u32) -> u32
    ensures { result ≡ header_spare word }
{
    (word & 0x3fff_ffff) >> 16
}

pub fn header_word(count: u8, edition: u8) -> u32
    ensures { result ≡ header_word count edition }
{
    u32::from(count) | (u32::from(edition) << 8)
}

// Of a knot word: bits 0 to 15.
pub fn position(word: u32) -> u32
    ensures { result ≡ Fields.position word }
{
    word & 0xffff
}

// Of a knot word: bits 16 to 18.
pub fn grade(word: u32) -> u32
    ensures { result ≡ Fields.grade word }
{
    (word >> 16) & 7
}

// Of a knot word: bits 19 to 29.
pub fn knot_spare(word: u32) -> u32
    ensures { result ≡ knot_spare word }
{
    (word & 0x3fff_ffff) >> 19
}

pub fn knot_word(position: u16, grade: u8) -> u32
    requires { grade < 2 ^ 3 }
    ensures { result ≡ knot_word position grade }
{
    (u32::from(position) | (u32::from(grade) << 16)) | (1 << 30)
}

// Of a coefficient word: bits 0 to 28, less bit 29, the sign.
pub fn payload(word: u32) -> i32
    ensures { result ≡ Fields.payload word }
{
    let low = word & 0x1fff_ffff;
    let sign = (word >> 29) & 1;
    low as i32 - (sign << 29) as i32
}

pub fn coefficient_word(c: i32) -> u32
    ensures { result ≡ coefficient_word c }
{
    ((c & 0x3fff_ffff) as u32) | (2 << 30)
}

// Of an end word: bits 0 to 29.
pub fn words_before(word: u32) -> u32
    ensures { result ≡ words_before word }
{
    word & 0x3fff_ffff
}

pub fn end_word(before: u32) -> u32
    requires { before < 2 ^ 30 }
    ensures { result ≡ end_word before }
{
    before | (3 << 30)
}

// Of a reading: bit 29.
pub fn reading_mark(word: u32) -> u32
    ensures { result ≡ reading_mark word }
{
    (word & 0x3fff_ffff) >> 29
}

// Of a reading: bits 0 to 15.
pub fn reading(word: u32) -> u32
    ensures { result ≡ Fields.reading word }
{
    word & 0xffff
}

// Of a reading: bits 16 to 28.
pub fn reading_spare(word: u32) -> u32
    ensures { result ≡ reading_spare word }
{
    (word & 0x1fff_ffff) >> 16
}
