// The block cipher under the bytes of a key: DES under 8, triple DES under 16 (01, The job and its edge; PIN blocks).
#![tactic(auto)]

ghost use Rattle.std.specs.Prelude.{◌≡◌};
ghost use Rattle.lent.specs.Refusals.{size};
ghost use Rattle.lent.specs.Result.{done, require};
ghost use Rattle.lent.specs.Words.{word};
ghost use Rattle.keyed.specs.Keyed.{key_size, block_size, encrypt_block, decrypt_block};
ghost use Rattle.keyed.specs.Private.{key_of, encrypted_by, decrypted_by};

use lent::Refusal;

// A key: of 8 bytes, for DES, or of 16, for triple DES under a left and a right one.
#[derive(Clone, Copy)]
enum Key {
    Single(u64),
    Double(u64, u64),
}

impl TryFrom<&[u8]> for Key {
    type Error = Refusal;

    ghost try_from_gives = { λ bytes key. key ≡ require (key_size bytes.now) size (done (key_of bytes.now)) };

    fn try_from(bytes: &[u8]) -> Result<Key, Refusal> {
        match bytes.len() {
            8 => Ok(Key::Single(lent::word_of(bytes))),
            16 => Ok(Key::Double(lent::word_of(bytes), lent::right_half(bytes))),
            _ => Err(Refusal::Size),
        }
    }
}

impl Key {
    // A word encrypted.
    fn encrypt(self, x: u64) -> u64
        ensures { result ≡ encrypted_by self x }
    {
        match self {
            Key::Single(key) => cipher::encrypt(key, x),
            Key::Double(left, right) => cipher::triple_encrypt(left, right, x),
        }
    }

    // A word decrypted.
    fn decrypt(self, x: u64) -> u64
        ensures { result ≡ decrypted_by self x }
    {
        match self {
            Key::Single(key) => cipher::decrypt(key, x),
            Key::Double(left, right) => cipher::triple_decrypt(left, right, x),
        }
    }
}

// Whether a key has 8 or 16 bytes.
pub fn key_sized(key: &[u8]) -> bool
    ensures { result ≡ key_size key.now }
{
    Key::try_from(key).is_ok()
}

// The word of a block. Refuses with 6 if it does not have 8 bytes.
pub fn block_word(block: &[u8]) -> Result<u64, Refusal>
    ensures { result ≡ require (block_size block.now) size (done (word block.now)) }
{
    if block.len() != 8 {
        return Err(Refusal::Size);
    }
    Ok(lent::word_of(block))
}

// The two directions differ in one word: a parameter for it would be no plainer.

// A block encrypted under a key. Refuses with 6 if the block does not have 8 bytes or the key 8 or 16.
pub fn encrypt_block(key: &[u8], block: &[u8]) -> Result<[u8; 8], Refusal>
    ensures { result ≡ encrypt_block key.now block.now }
{
    let x = block_word(block)?;
    Ok(lent::bytes_of(Key::try_from(key)?.encrypt(x)))
}

// A block decrypted under a key. Refuses with 6 if the block does not have 8 bytes or the key 8 or 16.
pub fn decrypt_block(key: &[u8], block: &[u8]) -> Result<[u8; 8], Refusal>
    ensures { result ≡ decrypt_block key.now block.now }
{
    let x = block_word(block)?;
    Ok(lent::bytes_of(Key::try_from(key)?.decrypt(x)))
}
