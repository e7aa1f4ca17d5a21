// The refusals and their numbers (01, Numbers an operator sees).
ghost use Rattle.std.specs.Prelude.{◌≡◌};
ghost use Rattle.lent.specs.Refusals.{number_of};

// Why a call is refused.
#[derive(Clone, Copy, Debug, PartialEq, Eq)]
pub enum Refusal {
    // Message empty, or a record is cut short.
    CutShort = 1,
    // First field is not 0, a field number is above 192, or not above the one before.
    FieldOrder = 2,
    // Message type does not start with 01, 02, 04 or 05.
    MessageType = 3,
    // A listed field has the wrong length or characters.
    FieldForm = 4,
    // MAC asked over a text that is empty after cleaning.
    EmptyText = 5,
    // A length or size is outside its range.
    Size = 6,
    // A character is not a digit, hexadecimal or a password's, where one is asked.
    Character = 7,
    // A block comes from no permitted PIN, password or VIP number.
    BadBlock = 8,
    // The two halves of a derivation key agree without the low bit of each byte.
    EqualHalves = 9,
    // Host counter is 0 or has more than ten one bits.
    BadCounter = 10,
    // Terminal state does not hang together.
    BadRecord = 11,
    // Terminal exhausted.
    Exhausted = 12,
    // Lent buffer shorter than the result.
    ShortBuffer = 13,
}

impl Refusal {
    // The number that an operator sees.
    pub fn number(self) -> u32
        ensures { result ≡ number_of self }
    {
        self as u32
    }
}
