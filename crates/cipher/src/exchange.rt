// An exchange of bits.
ghost use Rattle.std.specs.Prelude.{◌≡◌, ◌<◌};
ghost use Rattle.cipher.specs.Private.{exchanged};

// Each bit of x under the mask changes places with the one n places to its left.
pub(crate) fn exchange(n: u64, mask: u64, x: u64) -> u64
    requires { n < 64 }
    ensures { result ≡ exchanged n mask x }
{
    (x & !(mask ^ (mask << n))) ^ ((x & mask) << n) ^ ((x >> n) & mask)
}
