// Cleaning a text (01, The message and its MAC text).
#![tactic(auto)]

mod answers;

ghost use Rattle.std.specs.Prelude.{◌≡◌, ◌≤◌, length};
ghost use Rattle.lent.specs.Result.{done};
ghost use Rattle.cleaning.specs.Cleaning;
ghost use Rattle.cleaning.specs.Counts.{WritesText};
ghost use Rattle.cleaning.specs.Private.{IsCleaned};

pub use answers::{Cleaned, Counts, TextAnswer};
use arrayvec::ArrayVec;
use lent::Refusal;

// Whether a character stays: A to Z, 0 to 9, space, comma and full stop. The ranges are tested first: one `matches!` of all five makes `clean` take up
// to three times as long.
#[tactic(auto, unfolding(crate::specs::Cleaning::kept))]
fn kept(x: u8) -> bool
    ensures { result ≡ Cleaning.kept x }
{
    lent::between(b'A', b'Z', x) || lent::is_digit(x) || matches!(x, b' ' | b',' | b'.')
}

// A cleaned text, and what cleaning threw away.
#[derive(Drop)]
struct CleanText {
    text: ArrayVec<u8, 1024>,
    counts: Counts,
}

impl CleanText {
    // Cleans a text in one pass. A space is owed once a character stands before it; it is written with the next character that is not a space.
    // What was neither written nor dropped are the spaces that went out.
    fn of(text: &[u8]) -> CleanText
        requires { length text.now ≤ 1024 }
        ensures { IsCleaned text.now result }
    {
        let mut written = ArrayVec::new();
        let mut dropped = 0;
        let mut owed = false;
        for x in text {
            match lent::capitalized(*x) {
                b' ' => owed = !written.is_empty(),
                y if kept(y) => {
                    if owed {
                        written.push(b' ');
                    }
                    written.push(y);
                    owed = false;
                }
                _ => dropped += 1,
            }
        }
        let spaces = text.len() - written.len() - dropped;
        CleanText {
            text: written,
            counts: Counts { dropped, spaces },
        }
    }
}

// Cleans a text into lent memory: refuses with 6 if the text has more than 1,024 bytes, with 13 if the memory is shorter than the result.
pub fn clean(text: &[u8], out: &mut [u8]) -> Result<Cleaned, Refusal>
    ensures { WritesText (Cleaning.clean_text text.now) (done text.now) out.old result out.new }
{
    if text.len() > 1024 {
        return Err(Refusal::Size);
    }
    let CleanText { text, counts } = CleanText::of(text);
    let length = lent::lend(text.as_slice(), out)?;
    Ok(Cleaned { length, counts })
}
