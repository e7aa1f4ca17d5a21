// What C gets of a call.
ghost use Rattle.std.specs.Prelude.{◌≡◌};
ghost use Rattle.lent.specs.Result.{answer_of};

use crate::refusals::Refusal;

// The number of a call that was done.
const DONE: u32 = 0;

// A value was written into lent memory: 0 and its length, or the refusal's number and 0. It crosses to C as it is.
#[repr(C)]
#[derive(Clone, Copy)]
pub struct Answer {
    pub number: u32,
    pub length: usize,
}

impl From<Result<usize, Refusal>> for Answer {
    ghost from_gives = { λ given answer. answer ≡ answer_of given };

    fn from(given: Result<usize, Refusal>) -> Answer {
        match given {
            Ok(length) => Answer {
                number: DONE,
                length,
            },
            Err(why) => Answer {
                number: why.number(),
                length: 0,
            },
        }
    }
}
