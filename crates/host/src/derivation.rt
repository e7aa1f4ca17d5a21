// The register key of a counter, from the initial key.
ghost use Rattle.std.specs.Prelude.{◌≡◌, ◌<◌};
ghost use Rattle.registers.specs.RegisterKey.{past, register_key};

use crate::keys::RegisterKey;
use registers::{Counter, Tail};

// The key past place b of the counter: a one bit makes a step, with it and the bits above it set in the data.
fn past_place<K: RegisterKey>(key: K, tail: Tail, counter: Counter, b: u32) -> K
    requires { b < 21 }
    ensures { result ≡ past K.device.one_way tail.word key counter.value b }
{
    let bits = counter.value >> b;
    if bits % 2 == 1 {
        key.one_way(tail.with_bits(bits << b))
    } else {
        key
    }
}

// The register key of a counter.
pub(crate) fn register_key<K: RegisterKey>(initial: K, tail: Tail, counter: Counter) -> K
    ensures { result ≡ register_key K.device.one_way initial tail.word counter.value }
{
    let mut key = initial;
    for b in (0..21).rev() {
        key = past_place(key, tail, counter, b);
    }
    key
}
