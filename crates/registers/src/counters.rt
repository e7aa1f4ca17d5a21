// The counters of a DUKPT terminal: which are permitted, which comes next, and which registers they fill.
ghost use Rattle.std.specs.Prelude.{◌≡◌, true, ◌↔◌, ◌<◌, MatchOption};
ghost use Rattle.registers.specs.Counters as Counters;
ghost use Rattle.registers.specs.Machine as Machine;

// The last permitted counter.
const LAST_COUNTER: u32 = 0x1FF800;

// One more than the largest number of 21 bits.
const COUNTER_RANGE: u32 = 0x200000;

// Whether a terminal may give out the counter c: it is not 0 and has 21 bits, at most ten of them one.
pub fn permitted(c: u32) -> bool
    ensures { (result ≡ true) ↔ Counters.Permitted c }
{
    0 < c && c < COUNTER_RANGE && c.count_ones() <= 10
}

// A counter that a terminal may give out.
#[derive(Clone, Copy)]
pub struct Counter {
    pub value: u32,
    ghost permitted: { Counters.Permitted value },
}

impl Counter {
    // The counter c, if a terminal may give it out.
    pub fn new(c: u32) -> Option<Counter>
        ensures { MatchOption result (¬ Counters.Permitted c) (λ counter. counter.value ≡ c) }
    {
        if permitted(c) {
            Some(Counter { value: c })
        } else {
            None
        }
    }

    // The register that holds its key when it is next.
    pub fn place(self) -> usize
        ensures value { result ≡ Counters.lowest_place self.value }
        ensures bound { result < 21 }
    {
        lowest_place(self.value)
    }
}

// The place of the lowest one bit of c: the register that holds the key of c when c is next. It is 32 for 0.
pub fn lowest_place(c: u32) -> usize
    ensures { result ≡ Counters.lowest_place c }
{
    c.trailing_zeros() as usize
}

// The counter that is next once c was given out, or 0 when there is none: below ten one bits c + 1, at ten c and its lowest one bit.
// 0 and no Option: an exhausted record holds the counter 0 (specs/Counters.antt: next_counter).
pub(crate) fn next_counter(c: u32) -> u32
    ensures { result ≡ Counters.next_counter c }
{
    if LAST_COUNTER <= c {
        0
    } else if c.count_ones() < 10 {
        c + 1
    } else {
        c + (1u32 << c.trailing_zeros())
    }
}

// The registers that are filled while the counter c is next, bit b for register b; none for 0.
pub(crate) fn filled_mask(c: u32) -> u32
    ensures { result ≡ Machine.filled_mask c }
{
    if c == 0 {
        0
    } else {
        COUNTER_RANGE.saturating_sub(c)
    }
}
