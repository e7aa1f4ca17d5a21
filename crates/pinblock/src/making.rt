// Making clear PIN blocks.
ghost use Rattle.std.specs.Prelude.{◌≡◌};
ghost use Rattle.pinblock.specs.Entries;

use crate::card_number::card_part;
use crate::pin::pin_block;
use lent::Refusal;

// The block of a PIN. Refuses with 6 if the PIN does not have 4 to 12 characters, 7 if one is not a digit.
pub fn make(pin: &[u8]) -> Result<[u8; 8], Refusal>
    ensures { result ≡ Entries.make pin.now }
{
    Ok(lent::bytes_of(pin_block(pin)?))
}

// The block of a PIN with a card number. Refuses with 6 if the PIN does not have 4 to 12 characters or the card number 13 to 19, 7 if a
// character of either is not a digit. The card number's last digit is not checked.
pub fn make_with_card(pin: &[u8], card: &[u8]) -> Result<[u8; 8], Refusal>
    ensures { result ≡ Entries.make_with_card pin.now card.now }
{
    // A size comes before the characters of both.
    if !lent::card_sized(card) {
        return Err(Refusal::Size);
    }
    Ok(lent::bytes_of(pin_block(pin)? ^ card_part(card)?))
}
