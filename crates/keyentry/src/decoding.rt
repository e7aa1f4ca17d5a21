// The bytes of a hexadecimal text.
ghost use Rattle.std.specs.Prelude.{◌≡◌, true, ◌+◌, ◌*◌, ◌≤◌, length, get_or};
ghost use Rattle.lent.specs.Choice.{all};
ghost use Rattle.lent.specs.Characters.{hexadecimal};
ghost use Rattle.lent.specs.Result.{Writes, over};
ghost use Rattle.keyentry.specs.Hexadecimal.{value_of, bytes_of};
ghost use Rattle.keyentry.specs.KeyEntry.{text_bytes};

use crate::hexadecimal::value_of;
use crate::units::{Bytes, Digits};
use lent::{Kind, Refusal};

// The byte whose two digits stand in the text at its place.
fn byte_of(text: &[u8], place: Bytes) -> u8
    requires place_in_bounds { 2 * place.0 + 2 ≤ length text.now }
    requires all_hexadecimal { all hexadecimal text.now ≡ true }
    ensures { result ≡ value_of (get_or text.now (2 * place.0) 0) * 16 + value_of (get_or text.now (2 * place.0 + 1) 0) }
{
    let Digits(at) = place.digits().unwrap();
    value_of(text[at]) * 16 + value_of(text[at + 1])
}

// Writes the bytes of a text to the start of lent memory, which keeps its old bytes after them.
fn put_bytes(text: &[u8], size: Bytes, out: &mut [u8])
    requires text_len { length text.now ≡ 2 * size.0 }
    requires all_hexadecimal { all hexadecimal text.now ≡ true }
    requires size_in_bounds { size.0 ≤ length out.old }
    ensures { out.new ≡ over (bytes_of text.now) out.old }
{
    for (i, byte) in out[..size.0].iter_mut().enumerate() {
        *byte = byte_of(text, Bytes(i));
    }
}

// Writes the bytes of a text of any size. Refuses with 6 if it does not have two digits for each byte, 7 if a character is not hexadecimal, 13 if the
// buffer is shorter than the bytes.
pub fn text_bytes(text: &[u8], out: &mut [u8]) -> Result<usize, Refusal>
    ensures { Writes (text_bytes text.now) out.old result out.new }
{
    if text.len() % 2 != 0 {
        return Err(Refusal::Size);
    }
    if !lent::all_of_kind(Kind::HexadecimalDigits, text) {
        return Err(Refusal::Character);
    }
    let size = Bytes(text.len() / 2);
    if out.len() < size.0 {
        return Err(Refusal::ShortBuffer);
    }
    put_bytes(text, size, out);
    Ok(size.0)
}
