// Cipher block chaining, from zero.
#![tactic(auto)]

ghost use Rattle.std.specs.Prelude.{◌≡◌};
ghost use Rattle.chaining.specs.Chain;

use cipher::Schedule;

// The chain over all blocks of s under a key, the last block filled with zeros. One pass; the key is scheduled once.
pub fn chained(key: u64, s: &[u8]) -> u64
    ensures { result ≡ Chain.chained key s.now }
{
    let schedule = Schedule::new(key);
    let mut h: u64 = 0;
    for block in s.chunks(8) {
        h = schedule.encrypt(h ^ lent::word_of(block));
    }
    h
}
