// The sixteen rounds. Their halves stand expanded by E, as the merged words give them.
ghost use Rattle.std.specs.Prelude.{[], ◌∷◌, ◌≡◌, ℕ, ◌^◌, ◌<◌};
ghost use Rattle.cipher.specs.Bits.{permuted};
ghost use Rattle.cipher.specs.Private.{LeadsTo};
ghost use Rattle.cipher.specs.Rounds;
ghost use Rattle.cipher.specs.Tables;

// The expansion E: each six bits of it stand in a row where the last bit of x stands before the first, and the first after the last.
pub(crate) fn expand(x: u64) -> u64
    requires { x < 2 ^ 32 }
    ensures { result ≡ permuted 32 Tables.expansion x }
{
    let ring = ((x % 2) << 33) ^ (x << 1) ^ (x >> 31);
    ((ring >> 28) << 42)
        ^ (((ring >> 24) % 64) << 36)
        ^ (((ring >> 20) % 64) << 30)
        ^ (((ring >> 16) % 64) << 24)
        ^ (((ring >> 12) % 64) << 18)
        ^ (((ring >> 8) % 64) << 12)
        ^ (((ring >> 4) % 64) << 6)
        ^ (ring % 64)
}

// The 32 bits that E expanded, the middle four of each six.
pub(crate) fn pack(x: u64) -> u64
    ensures { (a : ℕ) → a < 2 ^ 32 → x ≡ permuted 32 Tables.expansion a → result ≡ a }
{
    (((x >> 43) % 16) << 28)
        ^ (((x >> 37) % 16) << 24)
        ^ (((x >> 31) % 16) << 20)
        ^ (((x >> 25) % 16) << 16)
        ^ (((x >> 19) % 16) << 12)
        ^ (((x >> 13) % 16) << 8)
        ^ (((x >> 7) % 16) << 4)
        ^ ((x >> 1) % 16)
}

// A round for each key, on halves that stand expanded; at their end the right half stands before the left, 32 bits each.
// Not inlined, so that the halves stay in two registers.
#[inline(never)]
pub(crate) fn rounds(keys: &[u64], left: u64, right: u64) -> u64
    ensures { (whole : ℕ) → LeadsTo whole keys.now left right → result ≡ whole }
{
    let mut l = left;
    let mut r = right;
    for key in keys {
        let next = l ^ merged::substituted(r ^ *key);
        l = r;
        r = next;
    }
    (pack(r) << 32) ^ pack(l)
}

// Two rounds from nothing with the keys x and 0: the first reads the words for x, the second the bits that E repeats in them.
pub(crate) fn two_rounds(x: u64) -> u64
    ensures { result ≡ Rounds.rounded (x ∷ 0 ∷ []) 0 }
{
    let keys = [x, 0];
    rounds(&keys, 0, 0)
}
