// Keys of sixteen bytes, for triple DES.
ghost use Rattle.std.specs.Prelude.{◌≡◌, ◌++◌};
ghost use Rattle.lent.specs.Refusals.{size};
ghost use Rattle.lent.specs.Result.{done, require};
ghost use Rattle.lent.specs.Words.{left, right, word_bytes};
ghost use Rattle.cipher.specs.Triple.{triple_encrypted};
ghost use Rattle.card.specs.DoubleKey.{double_size};

use lent::Refusal;

// A key of sixteen bytes, as its two halves.
#[derive(Clone, Copy)]
pub(crate) struct DoubleKey {
    pub(crate) left: u64,
    pub(crate) right: u64,
}

impl TryFrom<&[u8]> for DoubleKey {
    type Error = Refusal;

    ghost try_from_gives = { λ bytes key. key ≡ require (double_size bytes.now) size (done (record { left = left bytes.now; right = right bytes.now })) };

    fn try_from(bytes: &[u8]) -> Result<DoubleKey, Refusal> {
        if bytes.len() != 16 {
            return Err(Refusal::Size);
        }
        Ok(DoubleKey {
            left: lent::word_of(bytes),
            right: lent::right_half(bytes),
        })
    }
}

impl DoubleKey {
    // Triple DES of a block.
    pub(crate) fn encrypt(self, block: u64) -> u64
        ensures { result ≡ triple_encrypted self.left self.right block }
    {
        cipher::triple_encrypt(self.left, self.right, block)
    }

    // The key that two blocks give: triple DES of each.
    pub(crate) fn derive(self, first: u64, second: u64) -> [u8; 16]
        ensures { result ≡ word_bytes (triple_encrypted self.left self.right first) ++ word_bytes (triple_encrypted self.left self.right second) }
    {
        lent::double_bytes_of(self.encrypt(first), self.encrypt(second))
    }
}
