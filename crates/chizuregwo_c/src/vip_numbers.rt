// VIP numbers and their blocks.
ghost use Rattle.lent.specs.Result.{Written};
ghost use Rattle.vip.specs.Vip;

// The block of a VIP number, 16 bytes. Refuses with 6, 7, 13.
#[unsafe(no_mangle)]
pub extern "C" fn czg_vip_make(digits: &[u8], out: &mut [u8]) -> lent::Answer
    ensures { Written (Vip.make digits.now) out.old result.number result.length out.new }
{
    lent::Answer::from(chizuregwo::vip_numbers::czg_vip_make(digits, out))
}

// The VIP number of a block, its digits. Refuses with 6, 8, 13.
#[unsafe(no_mangle)]
pub extern "C" fn czg_vip_read(block: &[u8], out: &mut [u8]) -> lent::Answer
    ensures { Written (Vip.read block.now) out.old result.number result.length out.new }
{
    lent::Answer::from(chizuregwo::vip_numbers::czg_vip_read(block, out))
}
