// What is answered of a cleaned text.
ghost use Rattle.std.specs.Prelude.{◌≡◌};
ghost use Rattle.cleaning.specs.Counts.{text_answer_of};

use lent::Refusal;

// What cleaning threw away: how many bytes of the text before it were dropped, and how many spaces went out.
#[derive(Clone, Copy, Debug, PartialEq, Eq)]
pub struct Counts {
    pub dropped: usize,
    pub spaces: usize,
}

// What is made of a cleaned text was written: its length, and what cleaning threw away.
#[derive(Clone, Copy, Debug, PartialEq, Eq)]
pub struct Cleaned {
    pub length: usize,
    pub counts: Counts,
}

// What C gets of a value that was written into lent memory: 0, its length, how many bytes of the text before cleaning were dropped and how many
// spaces went out, or the refusal's number and zeros.
#[repr(C)]
#[derive(Clone, Copy)]
pub struct TextAnswer {
    pub number: u32,
    pub length: usize,
    pub dropped: usize,
    pub spaces: usize,
}

impl From<Result<Cleaned, Refusal>> for TextAnswer {
    ghost from_gives = { λ given answer. answer ≡ text_answer_of given };

    fn from(given: Result<Cleaned, Refusal>) -> TextAnswer {
        match given {
            Ok(cleaned) => TextAnswer {
                number: 0,
                length: cleaned.length,
                dropped: cleaned.counts.dropped,
                spaces: cleaned.counts.spaces,
            },
            Err(why) => TextAnswer {
                number: why.number(),
                length: 0,
                dropped: 0,
                spaces: 0,
            },
        }
    }
}
