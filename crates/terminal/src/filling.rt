// The registers as they are filled, and renewed after a key.
ghost use Rattle.std.specs.Prelude.{◌≡◌, ◌+◌, ◌^◌, ◌≤◌};
ghost use Rattle.registers.specs.Machine.{fill, stepped, renewed};

use host::RegisterKey;
use registers::{Counter, Tail};

// The first n registers filled from the key of the counter c, each by one step with its own bit set in the data; the others are kept.
pub(crate) fn filled_from<K: RegisterKey>(
    keys: [K; 21],
    n: usize,
    key: K,
    tail: Tail,
    c: u32,
) -> [K; 21]
    requires n_bound { n ≤ 21 }
    requires counter_bound { c + 2 ^ n ≤ 2 ^ 21 }
    ensures { result ≡ fill n (stepped K.device key tail.word c) keys }
{
    let mut filled = keys;
    for b in 0..n {
        filled[b] = key.one_way(tail.with_bits(c + (1u32 << b)));
    }
    filled
}

// The registers after the key of a counter was given out: below ten one bits those below its register are filled from it; it is emptied.
pub(crate) fn renewed<K: RegisterKey>(keys: [K; 21], tail: Tail, counter: Counter) -> [K; 21]
    ensures { result ≡ renewed K.device keys tail.word counter.value }
{
    let l = counter.place();
    let mut left = keys;
    if counter.value.count_ones() < 10 {
        left = filled_from(keys, l, keys[l], tail, counter.value);
    }
    left[l] = K::empty();
    left
}
