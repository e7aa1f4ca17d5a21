// What is seen of a terminal's keys, and its report.
use console::{Standard, Told};
use doublehost::DoubleKey;
use host::RegisterKey;
use lent::Refusal;
use std::convert::AsSlice;

// A key that a report shows.
pub(crate) trait Shown: RegisterKey + PartialEq {
    // The line above the report.
    fn title() -> &'static [u8];

    // The words rotated by one bit, exclusive-or those of another key.
    fn mixed(self, other: Self) -> Self;
}

impl Shown for u64 {
    fn title() -> &'static [u8] {
        b"single length\n"
    }

    fn mixed(self, other: u64) -> u64 {
        self.rotate_left(1) ^ other
    }
}

impl Shown for DoubleKey {
    fn title() -> &'static [u8] {
        b"double length\n"
    }

    fn mixed(self, other: DoubleKey) -> DoubleKey {
        DoubleKey {
            left: self.left.mixed(other.left),
            right: self.right.mixed(other.right),
        }
    }
}

// A key, and the counter that it was given with.
#[derive(Clone, Copy)]
struct Drawn<K> {
    key: K,
    counter: u32,
}

// What was seen of the keys so far.
#[derive(Clone, Copy)]
pub(crate) struct Seen<K> {
    keys: u64,
    differed: u64,
    first: Drawn<K>,
    last: Drawn<K>,
    checksum: K,
}

impl<K: Shown> Seen<K> {
    // Nothing.
    pub(crate) fn nothing() -> Seen<K> {
        let none = Drawn {
            key: K::empty(),
            counter: 0,
        };
        Seen {
            keys: 0,
            differed: 0,
            first: none,
            last: none,
            checksum: K::empty(),
        }
    }

    // What was seen, with one key more, which the host derives or not. The checksum is rotated by one bit and exclusive-or'd with it.
    pub(crate) fn with_key(self, key: K, same: bool, counter: u32) -> Seen<K> {
        let mut next = self;
        let drawn = Drawn { key, counter };
        if self.keys == 0 {
            next.first = drawn;
        }
        if !same {
            next.differed = self.differed.wrapping_add(1);
        }
        next.keys = self.keys.wrapping_add(1);
        next.last = drawn;
        next.checksum = self.checksum.mixed(key);
        next
    }

    // Writes what was seen, and how the call after the last key was refused.
    pub(crate) fn report(self, console: &mut Standard<'_>, why: Refusal) -> Result<(), Told> {
        console.write(K::title())?;
        count_line(console, b"keys ", self.keys)?;
        count_line(console, b"differed from the host ", self.differed)?;
        key_line(console, b"first ", self.first)?;
        key_line(console, b"last ", self.last)?;
        console.write(b"checksum ")?;
        digits(console, self.checksum.bytes().as_slice())?;
        console.write(b"\n")?;
        count_line(console, b"then refused ", u64::from(why.number()))
    }
}

// ---- the report

// Writes the hexadecimal digits of up to sixteen bytes.
fn digits(console: &mut Standard<'_>, s: &[u8]) -> Result<(), Told> {
    let mut room = [0u8; 32];
    match keyentry::append_text(&mut room, 0, s) {
        Ok(k) => console.write(&room[..k]),
        Err(_) => Ok(()),
    }
}

// Writes a line: what it is, and a number in decimal.
fn count_line(console: &mut Standard<'_>, what: &[u8], n: u64) -> Result<(), Told> {
    let mut room = [0u8; 20];
    let k = console::decimal(n, &mut room);
    console.write(what)?;
    console.write(&room[..k])?;
    console.write(b"\n")
}

// Writes a line: what it is, a key, and its counter in hexadecimal.
fn key_line<K: Shown>(
    console: &mut Standard<'_>,
    what: &[u8],
    drawn: Drawn<K>,
) -> Result<(), Told> {
    let [_, high, middle, low] = drawn.counter.to_be_bytes();
    console.write(what)?;
    digits(console, drawn.key.bytes().as_slice())?;
    console.write(b" counter ")?;
    digits(console, &[high, middle, low])?;
    console.write(b"\n")
}
