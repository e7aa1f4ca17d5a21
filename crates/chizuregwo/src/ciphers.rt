// The block cipher: DES under a key of 8 bytes, triple DES under one of 16.
ghost use Rattle.lent.specs.Result.{Writes};
ghost use Rattle.keyed.specs.Keyed.{encrypt_block, decrypt_block};

use crate::answers::lend;

// Encrypts a block, 8 bytes. Refuses with 6, 13.
pub fn czg_encrypt(key: &[u8], block: &[u8], out: &mut [u8]) -> Result<usize, lent::Refusal>
    ensures { Writes (encrypt_block key.now block.now) out.old result out.new }
{
    lend(keyed::encrypt_block(key, block), out)
}

// Decrypts a block, 8 bytes. Refuses with 6, 13.
pub fn czg_decrypt(key: &[u8], block: &[u8], out: &mut [u8]) -> Result<usize, lent::Refusal>
    ensures { Writes (decrypt_block key.now block.now) out.old result out.new }
{
    lend(keyed::decrypt_block(key, block), out)
}
