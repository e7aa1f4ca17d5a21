// Where a terminal stands: which positions there are, and which comes after a key.
ghost use Rattle.std.specs.Prelude.{◌≡◌, true, ◌↔◌};
ghost use Rattle.registers.specs.Machine.{position_at, position_after, InOrder};

use crate::counters::{filled_mask, next_counter, permitted};

// The counter to be given out next, which registers are filled (bit b for register b), and whether the terminal is exhausted.
// Three plain fields, and no Option: lent bytes can say any of them, and `State` and `Valid` (specs/) speak of all.
#[derive(Clone, Copy)]
pub struct Position {
    pub counter: u32,
    pub filled: u32,
    pub exhausted: bool,
}

impl Position {
    // The position in which the counter c is next; for 0, which is no counter, the terminal is exhausted.
    pub fn at(c: u32) -> Position
        ensures { result ≡ position_at c }
    {
        Position {
            counter: c,
            filled: filled_mask(c),
            exhausted: c == 0,
        }
    }

    // The position once the counter c was given out.
    pub fn after(c: u32) -> Position
        ensures { result ≡ position_after c }
    {
        Position::at(next_counter(c))
    }

    // Whether a terminal can be in this position: that of a permitted counter, or exhausted.
    pub fn in_order(self) -> bool
        ensures { (result ≡ true) ↔ InOrder self }
    {
        if self.exhausted {
            self.counter == 0 && self.filled == 0
        } else {
            permitted(self.counter) && self.filled == filled_mask(self.counter)
        }
    }
}
