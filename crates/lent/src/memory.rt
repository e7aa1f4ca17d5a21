// Writing into lent memory.
ghost use Rattle.std.specs.Prelude.{◌≡◌, ◌++◌, ◌≤◌, length};
ghost use Rattle.lent.specs.Appending.{appending};
ghost use Rattle.lent.specs.Result.{Writes, done, over};
ghost use Rattle.lent.specs.Words.{word_bytes};

use crate::refusals::Refusal;
use crate::words::bytes_of;

// Copies `from` to the start of `to`, which keeps its old bytes after that. A loop, since `copy_from_slice` calls C's memmove, and the archive
// calls memcpy and memset alone.
fn copy(to: &mut [u8], from: &[u8])
    requires { length from.now ≤ length to.old }
    ensures { to.new ≡ over from.now to.old }
{
    for i in 0..from.len() {
        to[i] = from[i];
    }
}

// Writes a value into lent memory. Refuses with 13 if the memory is shorter.
pub fn lend(value: &[u8], out: &mut [u8]) -> Result<usize, Refusal>
    ensures { Writes (done value.now) out.old result out.new }
{
    if out.len() < value.len() {
        return Err(Refusal::ShortBuffer);
    }
    copy(out, value);
    Ok(value.len())
}

// The sixteen bytes of two words, the left one first.
pub fn double_bytes_of(left: u64, right: u64) -> [u8; 16]
    ensures { result ≡ word_bytes left ++ word_bytes right }
{
    let mut bytes = [0u8; 16];
    bytes[..8].copy_from_slice(&bytes_of(left));
    bytes[8..].copy_from_slice(&bytes_of(right));
    bytes
}

// Writes a value into lent memory after its first n bytes, and answers how many there are then. Refuses with 13 if the memory is
// shorter.
pub fn append(out: &mut [u8], n: usize, value: &[u8]) -> Result<usize, Refusal>
    ensures { Writes (appending value.now out.old n) out.old result out.new }
{
    if out.len() < n {
        return Err(Refusal::ShortBuffer);
    }
    Ok(n + lend(value, &mut out[n..])?)
}
