// Keys of sixteen bytes.
ghost use Rattle.std.specs.Prelude.{◌≡◌};
ghost use Rattle.doublehost.specs.DoubleLength;

// The mask.
const MASK: u64 = 0xC0C0_C0C0_0000_0000;

// A key by its halves.
#[derive(Clone, Copy, PartialEq, Eq)]
pub struct DoubleKey {
    pub left: u64,
    pub right: u64,
}

impl DoubleKey {
    // The key with the mask exclusive-or'd into both halves.
    pub(crate) fn masked(self) -> DoubleKey
        ensures { result ≡ DoubleLength.masked self }
    {
        DoubleKey {
            left: self.left ^ MASK,
            right: self.right ^ MASK,
        }
    }

    // Triple DES of a block under the two halves.
    pub(crate) fn tripled(self, block: u64) -> u64
        ensures { result ≡ DoubleLength.tripled self block }
    {
        cipher::triple_encrypt(self.left, self.right, block)
    }

    // 002's step under the left half, with the right half exclusive-or'd in and out.
    pub(crate) fn stepped(self, block: u64) -> u64
        ensures { result ≡ DoubleLength.stepped self block }
    {
        host::step(self.left, self.right, block)
    }
}
