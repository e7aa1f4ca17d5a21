// The card key and the session key.
ghost use Rattle.std.specs.Prelude.{◌≡◌};
ghost use Rattle.card.specs.Entries;

use crate::derivation::derivation_data;
use crate::double_key::DoubleKey;
use lent::Refusal;

// The card key of a card number and sequence under the master key, before its parity is set. Refuses with 6 if the master key does not have 16
// bytes, the card number does not have 13 to 19 characters or the sequence is above 99, 7 if a character is not a digit.
pub fn unadjusted_card_key(
    master_key: &[u8],
    card: &[u8],
    sequence: u32,
) -> Result<[u8; 16], Refusal>
    ensures { result ≡ Entries.unadjusted_card_key master_key.now card.now sequence }
{
    let key = DoubleKey::try_from(master_key)?;
    let y = lent::word_of(&derivation_data(card, sequence)?);
    Ok(key.derive(y, !y))
}

// The card key, adjusted to an odd number of ones in every byte. Refuses with 6 and 7 as the unadjusted one.
pub fn card_key(master_key: &[u8], card: &[u8], sequence: u32) -> Result<[u8; 16], Refusal>
    ensures { result ≡ Entries.card_key master_key.now card.now sequence }
{
    let mut key = unadjusted_card_key(master_key, card, sequence)?;
    parity::adjust(&mut key);
    Ok(key)
}

// The session key of a transaction counter under the card key. Refuses with 6 if the card key does not have 16 bytes.
pub fn session_key(card_key: &[u8], counter: u16) -> Result<[u8; 16], Refusal>
    ensures { result ≡ Entries.session_key card_key.now counter }
{
    let key = DoubleKey::try_from(card_key)?;
    Ok(key.derive(u64::from(counter), u64::from(!counter)))
}
