// A card number's part of a PIN's block (01, PIN blocks; ISO 9564-1, format 0).
ghost use Rattle.std.specs.Prelude.{◌≡◌};
ghost use Rattle.lent.specs.CardNumbers.{card_size};
ghost use Rattle.lent.specs.Characters.{digit};
ghost use Rattle.lent.specs.Choice.{all};
ghost use Rattle.lent.specs.Refusals.{size, character};
ghost use Rattle.lent.specs.Result.{done, require};
ghost use Rattle.pinblock.specs.CardNumber.{card_part};

use lent::Refusal;

// A card number's part of a PIN's block: 0000 and the twelve rightmost digits leaving out the last. Refuses with 6 if the card number does not have
// 13 to 19 characters, 7 if one is not a digit.
pub(crate) fn card_part(card: &[u8]) -> Result<u64, Refusal>
    ensures { result ≡ require (card_size card.now) size (require (all digit card.now) character (done (card_part card.now))) }
{
    if !lent::card_sized(card) {
        return Err(Refusal::Size);
    }
    if !lent::all_digits(card) {
        return Err(Refusal::Character);
    }
    let start = card.len() - 13;
    Ok(lent::with_half_bytes(0, &card[start..start + 12]))
}
