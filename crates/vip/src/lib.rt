// VIP numbers and their blocks, in the clear (02, M-102; source document 003, 5.4).
#![tactic(auto)]

ghost use Rattle.std.specs.Prelude.{◌≡◌, length};
ghost use Rattle.lent.specs.Result.{Writes};
ghost use Rattle.keyentry.specs.Hexadecimal.{text_of};
ghost use Rattle.vip.specs.Vip;

use lent::{Kind, Refusal};

// The block of a VIP number: its half-bytes are two decimal digits of length, its digits, then F up to 32. Refuses with 6 if the number does not have
// 11 to 19 characters, 7 if one is not a digit.
fn block_of(digits: &[u8]) -> Result<[u8; 16], Refusal>
    ensures { result ≡ Vip.make digits.now }
{
    lent::permitted(11, 19, Kind::Digits, digits)?;
    let text: [u8; 32] = lent::framed(b'F', digits);
    let mut block = [0; 16];
    keyentry::text_bytes(&text, &mut block)?;
    Ok(block)
}

// Writes the block of a VIP number. Refuses with 6 if the number does not have 11 to 19 characters, 7 if one is not a digit, 13 if the memory is
// shorter than the block.
pub fn make(digits: &[u8], out: &mut [u8]) -> Result<usize, Refusal>
    ensures { Writes (Vip.make digits.now) out.old result out.new }
{
    lent::lend(&block_of(digits)?, out)
}

// The half-bytes of a block, in capital hexadecimal.
fn half_bytes(block: &[u8]) -> [u8; 32]
    requires { length block.now ≡ 16 }
    ensures { result ≡ text_of 65 block.now }
{
    let mut text = [0; 32];
    keyentry::append_text(&mut text, 0, block).unwrap();
    text
}

// Writes the VIP number of a block. Refuses with 6 if the block does not have 16 bytes, 8 if it comes from no permitted VIP number, 13 if the memory is
// shorter than the number.
pub fn read(block: &[u8], out: &mut [u8]) -> Result<usize, Refusal>
    ensures { Writes (Vip.read block.now) out.old result out.new }
{
    if block.len() != 16 {
        return Err(Refusal::Size);
    }
    let text = half_bytes(block);
    let digits = lent::framed_text(&text);
    // a password is read by the same four lines: one function with a maker for each would be no plainer
    match block_of(digits) {
        Ok(made) if lent::same(block, &made) => lent::lend(digits, out),
        _ => Err(Refusal::BadBlock),
    }
}
