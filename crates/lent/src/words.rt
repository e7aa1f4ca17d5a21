// Words and their bytes, the highest first.
ghost use Rattle.std.specs.Prelude.{◌≡◌, ℕ, ◌<◌, get_or};
ghost use Rattle.lent.specs.Words.{from_base, word, right, word_bytes};

// The byte at i; past the end, 0.
pub fn byte_at(s: &[u8], i: usize) -> u8
    ensures { result ≡ get_or s.now i 0 }
{
    s.get(i).copied().unwrap_or(0)
}

// A number of 32 bits as one of 64.
pub fn wide(x: u32) -> u64
    ensures { result ≡ x }
{
    u64::from(x)
}

// The first N bytes of s; past the end stand zeros.
fn first_bytes<const N: usize>(s: &[u8]) -> [u8; N]
    ensures { (i : ℕ) → i < N → get_or result i 0 ≡ get_or s.now i 0 }
{
    std::array::from_fn(|i| byte_at(s, i))
}

// The word of the first eight bytes of s; past the end stand zeros.
pub fn word_of(s: &[u8]) -> u64
    ensures { result ≡ word s.now }
{
    u64::from_be_bytes(first_bytes(s))
}

// The number of the first four bytes of s; past the end stand zeros.
pub fn number_of(s: &[u8]) -> u32
    ensures { result ≡ from_base 256 4 s.now }
{
    u32::from_be_bytes(first_bytes(s))
}

// The right half of a key of sixteen bytes; past the end stand zeros.
pub fn right_half(key: &[u8]) -> u64
    ensures { result ≡ right key.now }
{
    key.get(8..).map_or(0, word_of)
}

// The eight bytes of a word.
pub fn bytes_of(x: u64) -> [u8; 8]
    ensures { result ≡ word_bytes x }
{
    x.to_be_bytes()
}
