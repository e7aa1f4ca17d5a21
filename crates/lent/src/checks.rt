// What a text has to be before a block is made of it.
ghost use Rattle.std.specs.Prelude.{◌≡◌};
ghost use Rattle.lent.specs.Characters.{of_kind};
ghost use Rattle.lent.specs.Permitted.{permitted};

use crate::characters::{Kind, all_of_kind};
use crate::refusals::Refusal;
use crate::sizes::sized;

// A text of `least` to `most` characters of a kind. Refuses with 6 if it has fewer or more, 7 if a character is not of the kind.
pub fn permitted(least: usize, most: usize, kind: Kind, text: &[u8]) -> Result<(), Refusal>
    ensures { result ≡ permitted least most (of_kind kind) text.now }
{
    if !sized(least, most, text) {
        return Err(Refusal::Size);
    }
    if !all_of_kind(kind, text) {
        return Err(Refusal::Character);
    }
    Ok(())
}
