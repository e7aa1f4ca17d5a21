// Internet passwords and their blocks.
ghost use Rattle.lent.specs.Result.{Written};
ghost use Rattle.password.specs.Password;

// The block of a password, 24 bytes. Refuses with 6, 7, 13.
#[unsafe(no_mangle)]
pub extern "C" fn czg_password_make(password: &[u8], out: &mut [u8]) -> lent::Answer
    ensures { Written (Password.make password.now) out.old result.number result.length out.new }
{
    lent::Answer::from(chizuregwo::passwords::czg_password_make(password, out))
}

// The password of a block, its characters. Refuses with 6, 8, 13.
#[unsafe(no_mangle)]
pub extern "C" fn czg_password_read(block: &[u8], out: &mut [u8]) -> lent::Answer
    ensures { Written (Password.read block.now) out.old result.number result.length out.new }
{
    lent::Answer::from(chizuregwo::passwords::czg_password_read(block, out))
}
