// What a terminal gives out, and the record that it leaves.
ghost use Rattle.std.specs.Prelude.{◌≡◌, false, Bool, IfOk, IfErr};
ghost use Rattle.lent.specs.Result.{refused};
ghost use Rattle.registers.specs.Counters.{lowest_place};
ghost use Rattle.registers.specs.Machine.{key_at, spent};
ghost use Rattle.registers.specs.Rule.{Valid};
ghost use Rattle.registers.specs.Calls.{next_key};
ghost use Rattle.terminal.specs.View.{view};

use crate::filling::renewed;
use crate::state::Terminal;
use host::RegisterKey;
use lent::Refusal;
use registers::{Counter, Position};

impl<K: RegisterKey> Terminal<K> {
    // The counter that is next. Refuses with 11 if the record does not hang together, 12 if it is exhausted.
    pub fn next_counter(&self) -> Result<Counter, Refusal>
        ensures counter { IfOk result (λ counter. counter.value ≡ self.now.position.counter) }
        ensures valid { IfOk result (λ _. Valid K.device (view self.now)) }
        ensures running { IfOk result (λ _. self.now.position.exhausted ≡ false) }
        ensures refusal { IfErr result (λ why. (enough : Bool) → next_key K.device (view self.now) enough ≡ refused why) }
    {
        if !self.valid() {
            return Err(Refusal::BadRecord);
        }
        if self.position.exhausted {
            return Err(Refusal::Exhausted);
        }
        Ok(Counter {
            value: self.position.counter,
        })
    }

    // The key given out with the counter that is next: its register key stands in the register of its lowest one bit.
    pub fn given_key(&self, counter: Counter) -> K
        ensures { result ≡ K.device.variant (key_at K.device (view self.now) (lowest_place counter.value)) }
    {
        self.keys[counter.place()].given_out()
    }

    // The record after the key of the counter that is next was given out.
    pub fn after_key(&self, counter: Counter) -> Terminal<K>
        ensures { counter.value ≡ self.now.position.counter → view result ≡ spent K.device (view self.now) }
    {
        let position = Position::after(counter.value);
        let keys = if position.exhausted {
            [K::empty(); 21]
        } else {
            renewed(self.keys, registers::cleared_tail(&self.serial), counter)
        };
        Terminal {
            keys,
            serial: self.serial,
            position,
        }
    }
}
