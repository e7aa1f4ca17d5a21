// The terminal's record, and whether it hangs together.
ghost use Rattle.std.specs.Prelude.{◌≡◌, true, ◌↔◌};
ghost use Rattle.registers.specs.Machine.{state_in};
ghost use Rattle.registers.specs.Rule.{Valid};
ghost use Rattle.registers.specs.Private.{Empties};
ghost use Rattle.terminal.specs.View.{view};

use host::RegisterKey;
use registers::Position;

// Twenty-one registers, the serial number with its counter cleared, and where the terminal stands.
#[derive(Clone, Copy)]
pub struct Terminal<K> {
    pub keys: [K; 21],
    pub serial: [u8; 10],
    pub position: Position,
}

impl<K: RegisterKey> Terminal<K> {
    // The record of these parts, which may not hang together.
    pub fn new(keys: [K; 21], serial: [u8; 10], position: Position) -> Terminal<K>
        ensures { view result ≡ state_in keys serial position }
    {
        Terminal {
            keys,
            serial,
            position,
        }
    }

    // Whether every empty register is zero.
    fn empties(&self) -> bool
        ensures { (result ≡ true) ↔ Empties K.device (view self.now) }
    {
        for (b, key) in self.keys.iter().enumerate() {
            if (self.position.filled >> b) % 2 == 0 && !key.is_empty() {
                return false;
            }
        }
        true
    }

    // Whether the record hangs together.
    pub(crate) fn valid(&self) -> bool
        ensures { (result ≡ true) ↔ Valid K.device (view self.now) }
    {
        registers::counter_of(&self.serial) == 0 && self.position.in_order() && self.empties()
    }
}
