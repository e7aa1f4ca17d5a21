// Characters put together as half-bytes of a word: two digits a byte.
ghost use Rattle.std.specs.Prelude.{◌≡◌, List, ◌++◌, map, ℕ, ◌+◌, ◌*◌, ◌%◌, ◌^◌};
ghost use Rattle.lent.specs.HalfBytes.{low_half, word_of};

// The word with one more half-byte after it, the low one of h; its highest half-byte is dropped.
fn with_half_byte(x: u64, h: u8) -> u64
    ensures { result ≡ (x * 16 + h % 16) % 2 ^ 64 }
{
    (x << 4) + u64::from(h % 16)
}

// The word x with the low half-bytes of a text's characters put after its own; the highest are dropped.
pub fn with_half_bytes(x: u64, text: &[u8]) -> u64
    ensures { (first : List ℕ) → x ≡ word_of first → result ≡ word_of (first ++ map low_half text.now) }
{
    text.iter().fold(x, |word, h| with_half_byte(word, *h))
}
