// Reading clear PIN blocks.
ghost use Rattle.std.specs.Prelude.{◌≡◌, map, take, drop};
ghost use Rattle.lent.specs.Characters.{digit_of};
ghost use Rattle.lent.specs.Result.{Writes};
ghost use Rattle.lent.specs.Words.{to_base};
ghost use Rattle.pinblock.specs.Entries;
ghost use Rattle.pinblock.specs.Reading.{pin_if_made, pin_of};

use crate::card_number::card_part;
use crate::half_bytes::half_byte;
use crate::pin::pin_block;
use lent::Refusal;

// The text of the twelve half-bytes after a block's length.
fn text_of(block: u64) -> [u8; 12]
    ensures { result ≡ map digit_of (take 12 (drop 2 (to_base 16 16 block))) }
{
    std::array::from_fn(|i| b'0' + half_byte(block, 2 + i))
}

// A PIN, if its block is this one. Refuses with 8 if it is not permitted or its block is another, 13 if the memory is shorter than the PIN.
fn pin_if_made(pin: &[u8], block: u64, out: &mut [u8]) -> Result<usize, Refusal>
    ensures { Writes (pin_if_made pin.now block) out.old result out.new }
{
    match pin_block(pin) {
        Ok(made) if made == block => lent::lend(pin, out),
        _ => Err(Refusal::BadBlock),
    }
}

// The PIN of a clear block's word. Refuses with 8 if it comes from no permitted PIN, 13 if the memory is shorter than the PIN. A length above 12 is
// no permitted PIN's.
fn read_word(block: u64, out: &mut [u8]) -> Result<usize, Refusal>
    ensures { Writes (pin_of block) out.old result out.new }
{
    let text = text_of(block);
    let count = usize::from(half_byte(block, 1));
    match text.get(..count) {
        Some(pin) => pin_if_made(pin, block, out),
        None => Err(Refusal::BadBlock),
    }
}

// The PIN of a block. Refuses with 6 if the block does not have 8 bytes, 8 if it comes from no permitted PIN, 13 if the memory is shorter than the
// PIN.
pub fn read(block: &[u8], out: &mut [u8]) -> Result<usize, Refusal>
    ensures { Writes (Entries.read block.now) out.old result out.new }
{
    read_word(keyed::block_word(block)?, out)
}

// The PIN of a block with a card number. Refuses with 6 if the block does not have 8 bytes or the card number 13 to 19 characters, 7 if one of
// these is not a digit, 8 if the block comes from no permitted PIN, 13 if the memory is shorter than the PIN.
pub fn read_with_card(block: &[u8], card: &[u8], out: &mut [u8]) -> Result<usize, Refusal>
    ensures { Writes (Entries.read_with_card block.now card.now) out.old result out.new }
{
    read_word(keyed::block_word(block)? ^ card_part(card)?, out)
}
