// The keys of a terminal's registers, of eight bytes or of sixteen: what each kind has of its own.
ghost use Rattle.std.specs.Prelude.{◌≡◌, true, ◌↔◌, ◌≤◌};
ghost use Rattle.std.specs.Mem.{type_size};
ghost use denote.Memory.{lone};
ghost use prog.Memory.{align};
ghost use lib.Dec.{lit≤};
ghost use Rattle.registers.specs.Device.{Device};
ghost use Rattle.registers.proofs.Lawful.{Lawful};
ghost use Rattle.host.specs.SingleLength as SingleLength;
ghost use Rattle.host.specs.Laws as Laws;

use std::convert::AsSlice;

// A key of a register, and how a terminal's keys are derived.
pub trait RegisterKey: Copy {
    // Its bytes, an array.
    type Bytes: AsSlice<u8> + Copy;

    // The device that has these keys.
    ghost device: { Device Self };

    // How many bytes a key has.
    fn size() -> usize
        ensures value { result ≡ device.size }
        ensures bound { result ≤ 16 };

    // The key that bytes start with; past the end stand zeros.
    fn read(bytes: &[u8]) -> Self
        ensures { result ≡ device.read bytes.now };

    // The bytes of the key.
    fn bytes(self) -> Self::Bytes
        ensures { Self.Bytes.items result ≡ device.bytes self };

    // What an empty register holds.
    fn empty() -> Self
        ensures { result ≡ device.empty };

    // Whether the key is what an empty register holds.
    fn is_empty(self) -> bool
        ensures { (result ≡ true) ↔ (self ≡ device.empty) };

    // The initial key, of a derivation key and the first eight bytes of the serial number without the counter.
    fn initial(derivation_key: &[u8], head: u64) -> Self
        ensures { result ≡ device.initial derivation_key.now head };

    // The one-way step, of the key and the data.
    fn one_way(self, block: u64) -> Self
        ensures { result ≡ device.one_way self block };

    // The key given out, of a register key.
    fn given_out(self) -> Self
        ensures { result ≡ device.variant self };

    // What demand 3 needs of the device.
    ghost lawful: { Lawful device };

    // A key takes at most sixteen bytes of memory, and stands at a multiple of at most sixteen.
    ghost small: { type_size Self.row ≤ 16 };

    ghost aligned: { align (lone Self.row.mir) ≤ 16 };
}

// 002's step: exclusive-or with `mixed`, encrypt under the key, exclusive-or with `mixed` again.
pub fn step(key: u64, mixed: u64, block: u64) -> u64
    ensures { result ≡ SingleLength.step key mixed block }
{
    cipher::encrypt(key, block ^ mixed) ^ mixed
}

// Keys of eight bytes (01, Terminal keys; 002).
impl RegisterKey for u64 {
    type Bytes = [u8; 8];

    ghost device = { SingleLength.single_length };

    fn size() -> usize {
        8
    }

    fn read(bytes: &[u8]) -> u64 {
        lent::word_of(bytes)
    }

    fn bytes(self) -> [u8; 8] {
        lent::bytes_of(self)
    }

    fn empty() -> u64 {
        0
    }

    fn is_empty(self) -> bool {
        self == 0
    }

    fn initial(derivation_key: &[u8], head: u64) -> u64 {
        cipher::triple_encrypt(
            lent::word_of(derivation_key),
            lent::right_half(derivation_key),
            head,
        )
    }

    // The key itself is exclusive-or'd in and out.
    fn one_way(self, block: u64) -> u64 {
        step(self, self, block)
    }

    fn given_out(self) -> u64 {
        self ^ 0xFF
    }

    ghost lawful = { Laws.lawful };

    ghost small = { lit≤ tt };

    ghost aligned = { lit≤ tt };
}
