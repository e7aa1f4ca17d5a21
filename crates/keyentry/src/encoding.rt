// The hexadecimal text of bytes, in memory that the caller lends: there is no heap.
ghost use Rattle.std.specs.Prelude.{◌+◌, ◌*◌, ◌≤◌, length};
ghost use Rattle.lent.specs.Appending.{appending};
ghost use Rattle.lent.specs.Private.{Appended};
ghost use Rattle.lent.specs.Result.{Writes};
ghost use Rattle.keyentry.specs.Hexadecimal.{text_of};

use crate::hexadecimal::byte_text;
use crate::units::Bytes;
use lent::Refusal;

// Writes the text of bytes after the first n bytes of memory that has room for it, and gives how many there are then.
fn put_text(out: &mut [u8], n: usize, bytes: &[u8]) -> usize
    requires { n + 2 * length bytes.now ≤ length out.old }
    ensures { Appended (text_of 65 bytes.now) out.old out.new n result }
{
    let mut end = n;
    for b in bytes {
        end = lent::append(out, end, &byte_text(*b)).unwrap();
    }
    end
}

// Writes the text of bytes, in capitals, into lent memory after its first n bytes, and answers how many there are then. Refuses with 13 if the memory is
// shorter.
pub fn append_text(out: &mut [u8], n: usize, bytes: &[u8]) -> Result<usize, Refusal>
    ensures { Writes (appending (text_of 65 bytes.now) out.old n) out.old result out.new }
{
    let Some(digits) = Bytes(bytes.len()).digits() else {
        return Err(Refusal::ShortBuffer);
    };
    if out.len() < n || out.len() - n < digits.0 {
        return Err(Refusal::ShortBuffer);
    }
    Ok(put_text(out, n, bytes))
}
