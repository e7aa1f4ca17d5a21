// The inputs of a request.
ghost use Rattle.std.specs.Prelude.{◌≡◌, OnOk};
ghost use Rattle.lent.specs.Result.{Writes, bytes};
ghost use Rattle.czg.specs.Inputs.{input_bytes};

use crate::faults::Fault;
use crate::lines::{MOST_LINE, cut};
use crate::numbers::number_of;
use std::marker::Model;

// The bytes of an input: no more than a line has. An array and a length, since what reads them writes into lent memory.
#[derive(Drop)]
pub(crate) struct Bytes {
    pub(crate) memory: [u8; MOST_LINE],
    pub(crate) length: usize,
}

impl Model for Bytes {
    ghost use Rattle.std.specs.Prelude.{◌≤◌, List, ℕ, take};

    ghost Value = { List ℕ };

    ghost view = { λ b. take b.length b.memory };

    ghost invariant = { λ b. b.length ≤ 16384 };
}

// How an input is written.
#[derive(Clone, Copy, PartialEq, Eq)]
enum Kind {
    Hexadecimal,
    // A PIN, a card number, a password, a VIP number.
    Characters,
    // Characters to the end of the line.
    Text,
    // A decimal number, of at most so much.
    Number(u64),
}

// What is read of a line: up to three inputs of bytes, and a number.
#[derive(Drop)]
pub(crate) struct Inputs {
    pub(crate) parts: [Bytes; 3],
    pub(crate) number: u64,
}

// Writes the bytes that an input says. Refuses with 6 or 7 if it is not hexadecimal, 13 if there is no room.
fn put_input(characters: bool, part: &[u8], out: &mut [u8]) -> Result<usize, lent::Refusal>
    ensures { Writes (input_bytes characters part.now) out.old result out.new }
{
    if lent::same(part, b"-") {
        return lent::lend(b"", out);
    }
    if !characters {
        return keyentry::text_bytes(part, out);
    }
    if lent::starts_with(part, b"hex:") {
        return keyentry::text_bytes(&part[4..], out);
    }
    lent::lend(part, out)
}

impl Bytes {
    fn none() -> Bytes {
        Bytes {
            memory: [0; MOST_LINE],
            length: 0,
        }
    }

    pub(crate) fn as_slice(&self) -> &[u8]
        ensures { result.now ≡ self.now }
    {
        &self.memory[..self.length]
    }

    // The bytes that an input says take the place of those before.
    fn read(&mut self, characters: bool, part: &[u8]) -> Result<(), Fault>
        ensures { OnOk result (self.new ≡ bytes (input_bytes characters part.now)) }
    {
        let Ok(length) = put_input(characters, part, &mut self.memory) else {
            return Err(Fault::NotBytes);
        };
        self.length = length;
        Ok(())
    }
}

impl Kind {
    // What a word of the table says.
    fn of(word: &[u8]) -> Kind {
        match word {
            b"TEXT" => Kind::Text,
            b"PIN" | b"CARD" | b"PASSWORD" | b"DIGITS" => Kind::Characters,
            b"SIZE" => Kind::Number(u64::MAX),
            b"SEQUENCE" | b"NUMBER" => Kind::Number(u64::from(u32::MAX)),
            b"COUNTER" => Kind::Number(u64::from(u16::MAX)),
            _ => Kind::Hexadecimal,
        }
    }
}

impl Inputs {
    pub(crate) fn new() -> Inputs {
        Inputs {
            parts: [Bytes::none(), Bytes::none(), Bytes::none()],
            number: 0,
        }
    }

    // Reads the inputs that stand after a line's first space, as the words of the request's usage say.
    pub(crate) fn read(&mut self, usage: &[u8], line: Option<&[u8]>) -> Result<(), Fault> {
        let mut parts = self.parts.iter_mut();
        let mut rest = line;
        for word in usage.split(|x| *x == b' ').skip(1) {
            let left = rest.ok_or(Fault::Missing)?;
            let kind = Kind::of(word);
            let (part, after) = match kind {
                Kind::Text => (left, None),
                _ => cut(left, b' '),
            };
            if part.is_empty() {
                return Err(Fault::Missing);
            }
            if let Kind::Number(most) = kind {
                self.number = number_of(part, most).ok_or(Fault::NotANumber)?;
            } else {
                let bytes = parts.next().ok_or(Fault::TooMany)?;
                bytes.read(kind != Kind::Hexadecimal, part)?;
            }
            rest = after;
        }
        match rest {
            Some(_) => Err(Fault::TooMany),
            None => Ok(()),
        }
    }
}
