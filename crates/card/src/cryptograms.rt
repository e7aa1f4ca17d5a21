// The cryptograms of a transaction.
ghost use Rattle.std.specs.Prelude.{◌≡◌, ◌≤◌, length};
ghost use Rattle.card.specs.Algorithm3.{mac_algorithm3};
ghost use Rattle.card.specs.Entries;
ghost use Rattle.card.specs.Padding.{padded};

use crate::double_key::DoubleKey;
use lent::Refusal;

// The data padded, in a buffer of zeros.
fn padded<'a>(data: &[u8], buffer: &'a mut [u8; 256]) -> &'a [u8]
    requires { length «data».now ≤ 255 }
    ensures { result.now ≡ padded «data».now }
{
    buffer.fill(0);
    buffer[..data.len()].copy_from_slice(data);
    buffer[data.len()] = 0x80;
    &buffer[..8 * (data.len() / 8 + 1)]
}

// Algorithm 3 of ISO/IEC 9797-1 over the padded data.
fn arqc_word(key: DoubleKey, data: &[u8]) -> u64
    requires { length «data».now ≤ 255 }
    ensures { result ≡ mac_algorithm3 key.left key.right (padded «data».now) }
{
    let mut buffer = [0u8; 256];
    let chain = chaining::chained(key.left, padded(data, &mut buffer));
    cipher::encrypt(key.left, cipher::decrypt(key.right, chain))
}

// The ARQC of card data under a session key. Refuses with 6 if the key does not have 16 bytes or the data 1 to 255.
pub fn arqc(session_key: &[u8], data: &[u8]) -> Result<[u8; 8], Refusal>
    ensures { result ≡ Entries.arqc session_key.now «data».now }
{
    let key = DoubleKey::try_from(session_key)?;
    if !lent::sized(1, 255, data) {
        return Err(Refusal::Size);
    }
    Ok(lent::bytes_of(arqc_word(key, data)))
}

// The ARPC of an ARQC and a code under a session key. Refuses with 6 if the key does not have 16 bytes, the ARQC 8 or the code 2.
pub fn arpc(session_key: &[u8], arqc: &[u8], code: &[u8]) -> Result<[u8; 8], Refusal>
    ensures { result ≡ Entries.arpc session_key.now arqc.now code.now }
{
    let key = DoubleKey::try_from(session_key)?;
    if arqc.len() != 8 || code.len() != 2 {
        return Err(Refusal::Size);
    }
    let block = lent::word_of(arqc) ^ lent::word_of(code);
    Ok(lent::bytes_of(key.encrypt(block)))
}
