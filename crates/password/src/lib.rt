// Internet passwords and their blocks, in the clear (02, M-102; source document 003, 5.5).
#![tactic(auto)]

ghost use Rattle.std.specs.Prelude.{◌≡◌};
ghost use Rattle.lent.specs.Result.{Writes};
ghost use Rattle.password.specs.Password;

use lent::{Kind, Refusal};

// The block of a password: two decimal characters of length, its characters, then FF up to 24 bytes. Refuses with 6 if the password does not
// have 6 to 20 characters, 7 if one is not from 21 to 7E hex.
fn block_of(password: &[u8]) -> Result<[u8; 24], Refusal>
    ensures { result ≡ Password.make password.now }
{
    lent::permitted(6, 20, Kind::Graphic, password)?;
    Ok(lent::framed(0xFF, password))
}

// Writes the block of a password. Refuses with 6 if the password does not have 6 to 20 characters, 7 if one is not from 21 to 7E hex, 13 if the
// memory is shorter than the block.
pub fn make(password: &[u8], out: &mut [u8]) -> Result<usize, Refusal>
    ensures { Writes (Password.make password.now) out.old result out.new }
{
    lent::lend(&block_of(password)?, out)
}

// Writes the password of a block. Refuses with 6 if the block does not have 24 bytes, 8 if it comes from no permitted password, 13 if the memory is
// shorter than the password.
pub fn read(block: &[u8], out: &mut [u8]) -> Result<usize, Refusal>
    ensures { Writes (Password.read block.now) out.old result out.new }
{
    if block.len() != 24 {
        return Err(Refusal::Size);
    }
    let password = lent::framed_text(block);
    // a VIP number is read by the same four lines: one function with a maker for each would be no plainer
    match block_of(password) {
        Ok(made) if lent::same(block, &made) => lent::lend(password, out),
        _ => Err(Refusal::BadBlock),
    }
}
