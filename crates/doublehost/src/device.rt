// How the keys of a terminal of double length are derived.
ghost use lib.Dec.{lit≤};
ghost use Rattle.doublehost.specs.DoubleLength;
ghost use Rattle.doublehost.specs.Laws;

use crate::keys::DoubleKey;
use host::RegisterKey;

impl RegisterKey for DoubleKey {
    type Bytes = [u8; 16];

    ghost device = { DoubleLength.double_length };

    fn size() -> usize {
        16
    }

    fn read(bytes: &[u8]) -> DoubleKey {
        DoubleKey {
            left: lent::word_of(bytes),
            right: lent::right_half(bytes),
        }
    }

    fn bytes(self) -> [u8; 16] {
        lent::double_bytes_of(self.left, self.right)
    }

    fn empty() -> DoubleKey {
        DoubleKey { left: 0, right: 0 }
    }

    fn is_empty(self) -> bool {
        self == DoubleKey::empty()
    }

    // The left half is made under the derivation key, the right half under the masked one.
    fn initial(derivation_key: &[u8], head: u64) -> DoubleKey {
        let key = DoubleKey::read(derivation_key);
        let masked_key = key.masked();
        DoubleKey {
            left: key.tripled(head),
            right: masked_key.tripled(head),
        }
    }

    // The right half comes from the unmasked key, the left from the masked one.
    fn one_way(self, block: u64) -> DoubleKey {
        let masked_key = self.masked();
        DoubleKey {
            left: masked_key.stepped(block),
            right: self.stepped(block),
        }
    }

    fn given_out(self) -> DoubleKey {
        DoubleKey {
            left: self.left.given_out(),
            right: self.right.given_out(),
        }
    }

    ghost lawful = { Laws.lawful };

    ghost small = { lit≤ tt };

    ghost aligned = { lit≤ tt };
}
