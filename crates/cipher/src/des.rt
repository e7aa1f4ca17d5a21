// The initial permutation and its inverse, and DES under a key.
ghost use Rattle.std.specs.Prelude.{◌≡◌};
ghost use Rattle.cipher.specs.Bits.{permuted};
ghost use Rattle.cipher.specs.Des.{encrypted, decrypted};
ghost use Rattle.cipher.specs.Tables.{initial_permutation, final_permutation};

use crate::exchange::exchange;
use crate::schedule::Schedule;

// The initial permutation IP.
pub(crate) fn initial_permutation(block: u64) -> u64
    ensures { result ≡ permuted 64 initial_permutation block }
{
    let a = exchange(3, 0x1111_1111_1111_1111, block);
    let b = exchange(9, 0x0055_0055_0055_0055, a);
    let c = exchange(6, 0x0303_0303_0303_0303, b);
    let d = exchange(18, 0x0000_3333_0000_3333, c);
    exchange(36, 0x0000_0000_0F0F_0F0F, d)
}

// IP⁻¹, the inverse of the initial permutation.
pub(crate) fn final_permutation(block: u64) -> u64
    ensures { result ≡ permuted 64 final_permutation block }
{
    let a = exchange(36, 0x0000_0000_0F0F_0F0F, block);
    let b = exchange(18, 0x0000_3333_0000_3333, a);
    let c = exchange(6, 0x0303_0303_0303_0303, b);
    let d = exchange(9, 0x0055_0055_0055_0055, c);
    exchange(3, 0x1111_1111_1111_1111, d)
}

// A block encrypted under a key.
pub fn encrypt(key: u64, block: u64) -> u64
    ensures { result ≡ encrypted key block }
{
    Schedule::new(key).encrypt(block)
}

// A block decrypted under a key.
pub fn decrypt(key: u64, block: u64) -> u64
    ensures { result ≡ decrypted key block }
{
    Schedule::new(key).decrypt(block)
}
