// VIP numbers and their blocks.
ghost use Rattle.lent.specs.Result.{Writes};
ghost use Rattle.vip.specs.Vip;

// The block of a VIP number, 16 bytes. Refuses with 6, 7, 13.
pub fn czg_vip_make(digits: &[u8], out: &mut [u8]) -> Result<usize, lent::Refusal>
    ensures { Writes (Vip.make digits.now) out.old result out.new }
{
    vip::make(digits, out)
}

// The VIP number of a block, its digits. Refuses with 6, 8, 13.
pub fn czg_vip_read(block: &[u8], out: &mut [u8]) -> Result<usize, lent::Refusal>
    ensures { Writes (Vip.read block.now) out.old result out.new }
{
    vip::read(block, out)
}
