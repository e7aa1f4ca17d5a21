// The terminal's call for its next key.
ghost use Rattle.std.specs.Prelude.{◌≡◌, Err};
ghost use Rattle.registers.specs.Calls.{Next};
ghost use Rattle.terminal.specs.View.{view, call_view};

use crate::state::Terminal;
use host::RegisterKey;
use lent::Refusal;
use std::convert::AsSlice;

// What a call for the next key gives out beside the key: the counter, and the serial number with that counter in it.
#[derive(Clone, Copy)]
pub struct Given {
    pub counter: u32,
    pub serial: [u8; 10],
}

// The answer of a call for the next key, and the record after it: where refused, the record as it was.
#[derive(Clone, Copy)]
pub struct NextKey<K> {
    pub given: Result<Given, Refusal>,
    pub terminal: Terminal<K>,
}

impl<K: RegisterKey> Terminal<K> {
    // The answer that refuses.
    fn refused(self, why: Refusal) -> NextKey<K>
        ensures { result ≡ record { given = Err why; terminal = self } }
    {
        NextKey {
            given: Err(why),
            terminal: self,
        }
    }

    // Gives out the next key, at the start of `out`. Refuses with 11 if the record does not hang together, 12 if it is exhausted, 13 if `out` is
    // shorter than the key. A refusal leaves the record and `out` as they were.
    pub fn next_key(self, out: &mut [u8]) -> NextKey<K>
        ensures { Next K.device (view self) (call_view out.old result out.new) }
    {
        let counter = match self.next_counter() {
            Ok(counter) => counter,
            Err(why) => return self.refused(why),
        };
        if out.len() < K::size() {
            return self.refused(Refusal::ShortBuffer);
        }
        out[..K::size()].copy_from_slice(self.given_key(counter).bytes().as_slice());
        NextKey {
            given: Ok(Given {
                counter: counter.value,
                serial: registers::with_counter(&self.serial, counter.value),
            }),
            terminal: self.after_key(counter),
        }
    }
}
