// DES under the sixteen round keys of a key.
ghost use Rattle.std.specs.Prelude.{◌≡◌};
ghost use Rattle.cipher.specs.Des.{encrypted_with, decrypted_with};
ghost use Rattle.cipher.specs.Schedule.{round_keys};

use crate::des::{final_permutation, initial_permutation};
use crate::rounds::{expand, rounds};

// The sixteen round keys in the order in which they encrypt.
#[derive(Clone, Copy)]
pub struct Schedule {
    pub keys: [u64; 16],
}

impl Schedule {
    // A key's schedule, for a key that is used again.
    pub fn new(key: u64) -> Schedule
        ensures { result.keys ≡ round_keys key }
    {
        let keys = crate::key_schedule::round_keys(key);
        Schedule { keys }
    }

    // A block encrypted.
    pub fn encrypt(&self, block: u64) -> u64
        ensures { result ≡ encrypted_with self.now.keys block }
    {
        let x = initial_permutation(block);
        final_permutation(rounds(&self.keys, expand(x >> 32), expand(x % 0x1_0000_0000)))
    }

    // A block decrypted: the round keys are taken in reverse order.
    pub fn decrypt(&self, block: u64) -> u64
        ensures { result ≡ decrypted_with self.now.keys block }
    {
        let mut keys = self.keys;
        keys.reverse();
        Schedule { keys }.encrypt(block)
    }
}
