// The room that is lent for a request's values.
ghost use Rattle.std.specs.Prelude.{◌≤◌, IfOk};

use crate::faults::Fault;
use crate::lines::cut;
use crate::numbers::number_of;

// The most room that is lent for a value.
pub(crate) const MOST_ROOM: usize = 1024;

// The room for the first value and for the second.
#[derive(Clone, Copy)]
pub(crate) struct Rooms {
    pub(crate) first: usize,
    pub(crate) second: usize,
    ghost within: { (first ≤ 1024) × (second ≤ 1024) },
}

// The room that a text says.
fn room_of(text: &[u8]) -> Result<usize, Fault>
    ensures { IfOk result (λ n. n ≤ 1024) }
{
    match number_of(text, MOST_ROOM as u64) {
        Some(room) => Ok(room as usize),
        None => Err(Fault::NoRoom),
    }
}

impl Rooms {
    // All that there is.
    pub(crate) fn all() -> Rooms {
        Rooms {
            first: MOST_ROOM,
            second: MOST_ROOM,
        }
    }

    // The rooms that a text says: one, or, where there are two values, two with a comma between.
    pub(crate) fn said(text: &[u8], two: bool) -> Result<Rooms, Fault> {
        let (first, second) = cut(text, b',');
        let first = room_of(first)?;
        let second = match second {
            None => MOST_ROOM,
            Some(second) if two => room_of(second)?,
            Some(_) => return Err(Fault::NoRoom),
        };
        Ok(Rooms { first, second })
    }
}
