// Words from and to bytes, low byte first.
ghost use Rattle.std.specs.Prelude.{◌≡◌, ◌+◌, ◌*◌, ◌^◌, ◌≤◌, ◌<◌, get_or, length};
ghost use Rattle.std.proofs.lemmas.List.Edits.{sets};
ghost use Rattle.block.specs.Bytes.{Below, bytes_of, words};

// Word k of these bytes, and 0 past the last one. If there is a word k, then all the numbers are bytes, below 2^8.
pub fn load(bytes: &[u8], k: usize) -> u32
    ensures value { result ≡ get_or (words bytes.now) k 0 }
    ensures below { k < length (words bytes.now) → Below (2 ^ 8) bytes.now }
{
    let (words, _) = bytes.as_chunks::<4>();
    let Some(word) = words.get(k) else {
        return 0;
    };
    u32::from_le_bytes(*word)
}

// Puts a word in place k.
pub fn store(bytes: &mut [u8], k: usize, word: u32)
    requires { 4 * k + 4 ≤ length bytes.old }
    ensures { bytes.new ≡ sets bytes.old (4 * k) (bytes_of word) }
{
    let [b0, b1, b2, b3] = word.to_le_bytes();
    bytes[4 * k] = b0;
    bytes[4 * k + 1] = b1;
    bytes[4 * k + 2] = b2;
    bytes[4 * k + 3] = b3;
}
