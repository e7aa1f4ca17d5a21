// The serial number and the counter in it. Past the end of a short one stand zeros.
ghost use Rattle.std.specs.Prelude.{◌≡◌, ◌+◌, ◌*◌, ◌/◌, ◌%◌, ◌^◌, ◌<◌};
ghost use Rattle.registers.specs.SerialNumber.{counter_of, with_counter, cleared_tail, cleared_head};

// The counter at the end of a serial number.
pub fn counter_of(serial_number: &[u8]) -> u32
    ensures { result ≡ counter_of serial_number.now }
{
    let high = u32::from(lent::byte_at(serial_number, 7));
    let middle = u32::from(lent::byte_at(serial_number, 8));
    let low = u32::from(lent::byte_at(serial_number, 9));
    high % 32 * 65536 + middle * 256 + low
}

// The byte that the counter starts in: its three high bits are kept, its five low ones are the counter's highest.
fn eighth_byte(old: u8, counter: u32) -> u8
    ensures { result ≡ old / 32 * 32 + counter / 2 ^ 16 % 32 }
{
    old / 32 * 32 + (counter / 65536 % 32) as u8
}

// The serial number with its counter replaced.
pub fn with_counter(serial_number: &[u8], counter: u32) -> [u8; 10]
    ensures { result ≡ with_counter serial_number.now counter }
{
    [
        lent::byte_at(serial_number, 0),
        lent::byte_at(serial_number, 1),
        lent::byte_at(serial_number, 2),
        lent::byte_at(serial_number, 3),
        lent::byte_at(serial_number, 4),
        lent::byte_at(serial_number, 5),
        lent::byte_at(serial_number, 6),
        eighth_byte(lent::byte_at(serial_number, 7), counter),
        (counter / 256 % 256) as u8,
        (counter % 256) as u8,
    ]
}

// The last eight bytes of a serial number with the counter cleared.
#[derive(Clone, Copy)]
pub struct Tail {
    pub word: u64,
    ghost clear: { word % 2 ^ 21 ≡ 0 },
}

impl Tail {
    // The data of a step: those bytes with these bits of a counter set. Bits above a counter's are left out.
    pub fn with_bits(self, bits: u32) -> u64
        ensures { result ≡ self.word + bits % 2 ^ 21 }
    {
        self.word + lent::wide(bits % 0x20_0000)
    }
}

// The last eight bytes of a serial number with the counter cleared.
pub fn cleared_tail(serial_number: &[u8]) -> Tail
    ensures { result.word ≡ cleared_tail serial_number.now }
{
    let cleared = with_counter(serial_number, 0);
    Tail {
        word: lent::word_of(&cleared[2..]),
    }
}

// The first eight bytes of a serial number with the low five bits cleared, so that the counter is not in them.
pub fn cleared_head(serial_number: &[u8]) -> u64
    ensures { result ≡ cleared_head serial_number.now }
{
    let x = lent::word_of(serial_number);
    x - x % 32
}
