// Encrypted PIN blocks: DES under a key of 8 bytes, triple DES under one of 16 (01, PIN blocks).
ghost use Rattle.std.specs.Prelude.{◌≡◌};
ghost use Rattle.lent.specs.Result.{Writes};
ghost use Rattle.pinblock.specs.Entries;

use crate::making::{make, make_with_card};
use crate::reading::{read, read_with_card};
use lent::Refusal;

// A block that was made, encrypted under a key. Refuses with 6 if the key does not have 8 or 16 bytes; a refusal to make it stays.
fn under_key(key: &[u8], made: Result<[u8; 8], Refusal>) -> Result<[u8; 8], Refusal>
    ensures { result ≡ Entries.under_key key.now made }
{
    if !keyed::key_sized(key) {
        return Err(Refusal::Size);
    }
    keyed::encrypt_block(key, &made?)
}

// The encrypted block of a PIN. Refuses with 6 if the PIN does not have 4 to 12 characters or the key 8 or 16 bytes, 7 if a character is not a
// digit.
pub fn encrypt(key: &[u8], pin: &[u8]) -> Result<[u8; 8], Refusal>
    ensures { result ≡ Entries.encrypt key.now pin.now }
{
    under_key(key, make(pin))
}

// The encrypted block of a PIN with a card number. Refuses with 6 if the PIN does not have 4 to 12 characters, the card number 13 to 19 or the key 8
// or 16 bytes, 7 if a character of the PIN or the card number is not a digit.
pub fn encrypt_with_card(key: &[u8], pin: &[u8], card: &[u8]) -> Result<[u8; 8], Refusal>
    ensures { result ≡ Entries.encrypt_with_card key.now pin.now card.now }
{
    under_key(key, make_with_card(pin, card))
}

// The PIN of an encrypted block. Refuses with 6 if the block does not have 8 bytes or the key 8 or 16, 8 if the block comes from no permitted PIN,
// 13 if the memory is shorter than the PIN.
pub fn decrypt(key: &[u8], block: &[u8], out: &mut [u8]) -> Result<usize, Refusal>
    ensures { Writes (Entries.decrypt key.now block.now) out.old result out.new }
{
    read(&keyed::decrypt_block(key, block)?, out)
}

// The PIN of an encrypted block with a card number. Refuses with 6 if the block does not have 8 bytes, the key 8 or 16 or the card number 13 to 19
// characters, 7 if one of these is not a digit, 8 if the block comes from no permitted PIN, 13 if the memory is shorter than the PIN.
pub fn decrypt_with_card(
    key: &[u8],
    block: &[u8],
    card: &[u8],
    out: &mut [u8],
) -> Result<usize, Refusal>
    ensures { Writes (Entries.decrypt_with_card key.now block.now card.now) out.old result out.new }
{
    read_with_card(&keyed::decrypt_block(key, block)?, card, out)
}
