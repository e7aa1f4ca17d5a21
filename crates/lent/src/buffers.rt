// Bytes gathered in a vector of fixed capacity.
ghost use Rattle.std.specs.Prelude.{◌≡◌, ◌+◌, ◌<◌, ◌≤◌, ◌++◌, length};
ghost use Rattle.arrayvec.specs.ArrayVec.{array_vec_len};

use arrayvec::ArrayVec;

// Appends a value; one for which there is no room is left out.
pub fn extend<const N: usize>(buffer: &mut ArrayVec<u8, N>, value: &[u8])
    ensures fits { array_vec_len buffer.old + length value.now ≤ N → buffer.new.items ≡ buffer.old.items ++ value.now }
    ensures full { N < array_vec_len buffer.old + length value.now → buffer.new.items ≡ buffer.old.items }
{
    let _ = buffer.try_extend_from_slice(value);
}
