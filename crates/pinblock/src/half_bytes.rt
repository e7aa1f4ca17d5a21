// The half-bytes of a block, the highest first.
ghost use Rattle.std.specs.Prelude.{◌≡◌, ◌<◌, get_or};
ghost use Rattle.lent.specs.Words.{to_base};

// The half-byte of a word at a place.
pub(crate) fn half_byte(x: u64, place: usize) -> u8
    requires { place < 16 }
    ensures { (result ≡ get_or (to_base 16 16 x) place 0) × (result < 16) }
{
    // u8 has no From<u64>; the value is below 16.
    ((x >> (60 - 4 * place)) % 16) as u8
}
