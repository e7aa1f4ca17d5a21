// A count of hexadecimal digits and a count of bytes, kept apart by their types (01, Digits and bytes).
ghost use Rattle.std.specs.Prelude.{◌≡◌};
ghost use Rattle.keyentry.specs.Doubled.{doubled};

// A number of hexadecimal digits, or a place among them.
#[derive(Clone, Copy, Debug, PartialEq, Eq)]
pub(crate) struct Digits(pub(crate) usize);

// A number of bytes, or a place among them.
#[derive(Clone, Copy, Debug, PartialEq, Eq)]
pub struct Bytes(pub usize);

impl Bytes {
    // Two digits for each byte, where a usize can count them.
    pub(crate) fn digits(self) -> Option<Digits>
        ensures { result ≡ doubled self }
    {
        self.0.checked_mul(2).map(Digits)
    }
}
