// The lines of the answers.
ghost use Rattle.std.specs.Prelude.{[], ◌≡◌, OnOk};

use crate::faults::Fault;
use crate::inputs::Inputs;
use arrayvec::ArrayVec;
use cipher::Check;
use cleaning::Counts;
use console::{Standard, Told};
use lent::Refusal;
use std::io::Write;

// Room that any answer fits in.
const MOST_ANSWER: usize = 4096;

// How a value is written.
#[derive(Clone, Copy)]
pub(crate) enum Form {
    // In hexadecimal, in capitals.
    Hexadecimal,
    // As it is.
    Text,
}

// The answers that are not written yet.
#[derive(Drop)]
pub(crate) struct Answers {
    lines: ArrayVec<u8, 65536>,
}

impl Answers {
    pub(crate) fn new() -> Answers {
        Answers {
            lines: ArrayVec::new(),
        }
    }

    // Writes what there is to standard output; none of it is written again.
    pub(crate) fn flush(&mut self, console: &mut Standard<'_>) -> Result<(), Told>
        ensures { OnOk result (self.new.lines.items ≡ []) }
    {
        console.write(self.lines.as_slice())?;
        self.lines.clear();
        Ok(())
    }

    // Makes room for another answer.
    pub(crate) fn make_room(&mut self, console: &mut Standard<'_>) -> Result<(), Told> {
        if self.lines.remaining_capacity() < MOST_ANSWER {
            return self.flush(console);
        }
        Ok(())
    }

    // A text for which there is no room is left out.
    pub(crate) fn put(&mut self, text: &[u8]) {
        let _ = self.lines.try_extend_from_slice(text);
    }

    // By a table of digits: `{x:02X}` takes a third longer for a line of `encrypt`.
    fn put_digits(&mut self, value: &[u8]) {
        let digits = b"0123456789ABCDEF";
        for x in value {
            self.put(&[digits[(x / 16) as usize], digits[(x % 16) as usize]]);
        }
    }

    // A space and a value; a hyphen where it has no bytes.
    pub(crate) fn put_value(&mut self, form: Form, value: &[u8]) {
        self.put(b" ");
        match form {
            _ if value.is_empty() => self.put(b"-"),
            Form::Text => self.put(value),
            Form::Hexadecimal => self.put_digits(value),
        }
    }

    // The line of a key, its serial number and the record after it, the first input.
    pub(crate) fn put_next_key(&mut self, key: &[u8], serial: &[u8], i: &Inputs) {
        self.put(b"done");
        self.put_value(Form::Hexadecimal, key);
        self.put_value(Form::Hexadecimal, serial);
        self.put_value(Form::Hexadecimal, i.parts[0].as_slice());
        self.put(b"\n");
    }

    // The line of a refusal.
    pub(crate) fn put_refused(&mut self, why: Refusal) {
        let _ = writeln!(self.lines, "refused {}", why.number());
    }

    // The line of a self-test in which a check differs.
    pub(crate) fn put_failed(&mut self, check: Check) {
        let _ = writeln!(self.lines, "failed {}", check.number());
    }

    // The end of an answer to what cleaned a text: what cleaning threw away.
    pub(crate) fn put_thrown_away(&mut self, counts: Counts) {
        let _ = writeln!(self.lines, " {} {}", counts.dropped, counts.spaces);
    }

    // The line of what is no request.
    pub(crate) fn put_unknown(&mut self, fault: Fault) {
        let _ = writeln!(self.lines, "unknown {fault}");
    }
}
