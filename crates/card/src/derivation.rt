// Y of a card number and sequence.
ghost use Rattle.std.specs.Prelude.{◌≡◌, true};
ghost use Rattle.lent.specs.Choice.{all};
ghost use Rattle.lent.specs.Characters.{digit};
ghost use Rattle.card.specs.Derivation.{derivation_word};
ghost use Rattle.card.specs.Entries;

use lent::Refusal;

// Y, the word of the card number's digits and two of the sequence, of which the rightmost sixteen are kept. A digit's low half-byte is its value.
fn derivation_word(card: &[u8], sequence: u32) -> u64
    requires { all digit card.now ≡ true }
    ensures { result ≡ derivation_word card.now sequence }
{
    // usize has no From<u32>.
    let digits = lent::two_digits(sequence as usize);
    lent::with_half_bytes(lent::with_half_bytes(0, card), &digits)
}

// Y. Refuses with 6 if the card number does not have 13 to 19 characters or the sequence is above 99, 7 if a character is not a digit.
pub fn derivation_data(card: &[u8], sequence: u32) -> Result<[u8; 8], Refusal>
    ensures { result ≡ Entries.derivation_data card.now sequence }
{
    if !lent::card_sized(card) || sequence > 99 {
        return Err(Refusal::Size);
    }
    if !lent::all_digits(card) {
        return Err(Refusal::Character);
    }
    Ok(lent::bytes_of(derivation_word(card, sequence)))
}
