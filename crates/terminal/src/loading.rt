// Loading a terminal.
ghost use Rattle.std.specs.Prelude.{◌≡◌};
ghost use Rattle.lent.specs.Result.{number, of_done};
ghost use Rattle.registers.specs.Machine.{zero_state};
ghost use Rattle.registers.specs.Calls.{Load, loading};
ghost use Rattle.terminal.specs.View.{view, done_view};

use crate::filling::filled_from;
use crate::state::Terminal;
use host::RegisterKey;
use lent::Refusal;
use registers::Position;

impl<K: RegisterKey> Terminal<K> {
    // Loads a terminal with an initial key and a serial number, whose counter is cleared; counter 1 is next. Refuses with 6 if the key does not
    // have the device's size or the serial number 10 bytes.
    pub fn load(initial_key: &[u8], serial_number: &[u8]) -> Result<Terminal<K>, Refusal>
        ensures state { done_view result ≡ loading K.device initial_key.now serial_number.now }
        ensures load { Load K.device initial_key.now serial_number.now (number result) (of_done view (zero_state K.device) result) }
    {
        if initial_key.len() != K::size() || serial_number.len() != 10 {
            return Err(Refusal::Size);
        }
        let key = K::read(initial_key);
        let tail = registers::cleared_tail(serial_number);
        let keys = filled_from([K::empty(); 21], 21, key, tail, 0);
        Ok(Terminal {
            keys,
            serial: registers::with_counter(serial_number, 0),
            position: Position::at(1),
        })
    }
}
