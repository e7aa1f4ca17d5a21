// Internet passwords and their blocks.
ghost use Rattle.lent.specs.Result.{Writes};
ghost use Rattle.password.specs.Password;

// The block of a password, 24 bytes. Refuses with 6, 7, 13.
pub fn czg_password_make(password: &[u8], out: &mut [u8]) -> Result<usize, lent::Refusal>
    ensures { Writes (Password.make password.now) out.old result out.new }
{
    password::make(password, out)
}

// The password of a block, its characters. Refuses with 6, 8, 13.
pub fn czg_password_read(block: &[u8], out: &mut [u8]) -> Result<usize, lent::Refusal>
    ensures { Writes (Password.read block.now) out.old result out.new }
{
    password::read(block, out)
}
