// Key entry from hexadecimal text (01, Digits and bytes).
ghost use Rattle.std.specs.Prelude.{◌≡◌};
ghost use Rattle.lent.specs.Result.{Writes};
ghost use Rattle.keyentry.specs.KeyEntry.{bytes_written, key_size, full_text, key_entry};

use crate::decoding::text_bytes;
use crate::units::{Bytes, Digits};
use lent::Refusal;

// Whether a key has that size.
fn key_size(size: Bytes) -> bool
    ensures { result ≡ key_size size }
{
    lent::key_size(size.0)
}

// Whether a text has two digits for each byte.
fn full_text(text: &[u8], size: Bytes) -> bool
    ensures { result ≡ full_text text.now size }
{
    Some(Digits(text.len())) == size.digits()
}

// Enters a key of the wanted size. Refuses with 6 if the size is not 8 or 16 bytes or the text is not exactly twice as many digits, 7 if a
// character is not hexadecimal, 13 if the buffer is shorter than the key.
pub fn key_entry(text: &[u8], size: Bytes, out: &mut [u8]) -> Result<Bytes, Refusal>
    ensures { Writes (key_entry text.now size) out.old (bytes_written result) out.new }
{
    if !key_size(size) || !full_text(text, size) {
        return Err(Refusal::Size);
    }
    text_bytes(text, out).map(Bytes)
}
