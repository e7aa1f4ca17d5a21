// Keys held to one another.
ghost use Rattle.std.specs.Prelude.{◌≡◌};
ghost use Rattle.cipher.specs.Keys.{same_key};

// A 1 at each bit of a key but the low bit of each byte.
const KEY_BITS: u64 = 0xFEFE_FEFE_FEFE_FEFE;

// Whether two keys agree without the low bit of each byte.
pub fn same_key(key: u64, other: u64) -> bool
    ensures { result ≡ same_key key other }
{
    (key & KEY_BITS) == (other & KEY_BITS)
}
