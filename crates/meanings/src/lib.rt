// What the numbers that an operator sees mean.
#![tactic(auto)]

ghost use Rattle.lent.specs.Result.{Writes};
ghost use Rattle.meanings.specs.Meanings;

use lent::Refusal;

// Of each number, from 0 on.
const MEANINGS: [&str; 14] = [
    "done",
    "message empty, or a record is cut short",
    "first field is not 0, a field number is above 192, or not above the one before",
    "message type does not start with 01, 02, 04 or 05",
    "a listed field has the wrong length or characters",
    "MAC asked over a text that is empty after cleaning",
    "a length or size is outside its range",
    "a character is not a digit, hexadecimal or a password's, where one is asked",
    "a block comes from no permitted PIN, password or VIP number",
    "the two halves of a derivation key agree without the low bit of each byte",
    "host counter is 0 or has more than ten one bits",
    "terminal state does not hang together",
    "terminal exhausted",
    "lent buffer shorter than the result",
];

// Writes the meaning of a number. Refuses with 6 if it is none, 13 if the buffer is shorter than the text.
pub fn meaning(number: u32, out: &mut [u8]) -> Result<usize, Refusal>
    ensures { Writes (Meanings.meaning number) out.old result out.new }
{
    let text = MEANINGS.get(number as usize).ok_or(Refusal::Size)?;
    lent::lend(text.as_bytes(), out)
}
