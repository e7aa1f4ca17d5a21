// The block cipher: DES under a key of 8 bytes, triple DES under one of 16.
ghost use Rattle.lent.specs.Result.{Written};
ghost use Rattle.keyed.specs.Keyed.{encrypt_block, decrypt_block};

// Encrypts a block, 8 bytes. Refuses with 6, 13.
#[unsafe(no_mangle)]
pub extern "C" fn czg_encrypt(key: &[u8], block: &[u8], out: &mut [u8]) -> lent::Answer
    ensures { Written (encrypt_block key.now block.now) out.old result.number result.length out.new }
{
    lent::Answer::from(chizuregwo::ciphers::czg_encrypt(key, block, out))
}

// Decrypts a block, 8 bytes. Refuses with 6, 13.
#[unsafe(no_mangle)]
pub extern "C" fn czg_decrypt(key: &[u8], block: &[u8], out: &mut [u8]) -> lent::Answer
    ensures { Written (decrypt_block key.now block.now) out.old result.number result.length out.new }
{
    lent::Answer::from(chizuregwo::ciphers::czg_decrypt(key, block, out))
}
