// A program's streams.
ghost use Rattle.std.specs.Prelude.{◌<◌, ◌≤◌, length, take, IfOk, IfErr, OnOk};
ghost use Rattle.std.specs.Io.KnownBytes.{Appends, Consumes, IsAtEnd, ReadConsumes, WriteAppends};
ghost use Rattle.console.specs.Counts.{IsPrefixLen, WritesPart};

use std::io::{Error, ErrorKind, Read, Stderr, Stdin, Stdout, Write};

// Where a program reads, where it writes and where it tells of a failure, after its name.
#[derive(Drop)]
pub struct Console<'a, R, W, E> {
    pub who: &'a [u8],
    pub input: R,
    pub out: W,
    pub errors: E,
}

// The streams that a program is started with.
pub type Standard<'a> = Console<'a, Stdin, Stdout, Stderr>;

// A read or a write failed, and that was told on standard error. Of the bytes that were to be written, so many were.
#[derive(Clone, Copy, Debug, PartialEq, Eq)]
pub struct Told {
    pub written: usize,
}

// Where errno's text ends in what an error prints: before its number in brackets, which is not told.
fn text_end(shown: &[u8]) -> usize
    ensures { result ≤ length shown.now }
{
    (0..shown.len())
        .find(|i| shown[*i] == 0 || shown[*i..].starts_with(b" (os error "))
        .unwrap_or(shown.len())
}

// Tells who it is, what failed and the error's text, in a line on standard error.
fn tell<E: Write>(errors: &mut E, who: &[u8], what: &[u8], error: Error) -> Told {
    let mut shown = [0u8; 128];
    let _ = write!(&mut shown[..], "{error}");
    let end = text_end(&shown);
    for part in [who, b": ", what, b": ", &shown[..end], b"\n"] {
        let _ = errors.write_all(part);
    }
    Told { written: 0 }
}

impl<R: Read, W: Write, E: Write> Console<'_, R, W, E> {
    // Reads once into `buf`: at least a byte, or none at the end of the input.
    pub fn read_some(&mut self, buf: &mut [u8]) -> Result<usize, Told>
        ensures prefix_len { IfOk result (λ n. IsPrefixLen n buf.new) }
        ensures bytes { ReadConsumes (R.remaining self.old.input) (R.remaining self.new.input) result buf.new }
    {
        match self.input.read(buf) {
            Ok(n) => Ok(n),
            Err(error) => Err(tell(&mut self.errors, self.who, b"standard input", error)),
        }
    }

    // Reads until `buf` is full or the input ends. (The library's own loops go on after a call that a signal interrupts.)
    pub fn read_full(&mut self, buf: &mut [u8]) -> Result<usize, Told>
        ensures prefix_len { IfOk result (λ n. IsPrefixLen n buf.new) }
        ensures bytes { IfOk result (λ n. Consumes (R.remaining self.old.input) (R.remaining self.new.input) (take n buf.new)) }
        ensures end { IfOk result (λ n. n < length buf.new → IsAtEnd (R.remaining self.new.input)) }
    {
        let mut done = 0;
        while done < buf.len() {
            let n = self.read_some(&mut buf[done..])?;
            if n == 0 {
                break;
            }
            done += n;
        }
        Ok(done)
    }

    // Writes once: at least one of the bytes.
    fn write_some(&mut self, bytes: &[u8]) -> Result<usize, Told>
        ensures some { IfOk result (λ n. (0 < n) × (n ≤ length bytes.now)) }
        ensures bytes { WriteAppends (W.contents self.old.out) (W.contents self.new.out) result bytes.now }
    {
        let error = match self.out.write(bytes) {
            Ok(0) => Error::from(ErrorKind::WriteZero),
            Ok(n) => return Ok(n),
            Err(error) => error,
        };
        Err(tell(&mut self.errors, self.who, b"standard output", error))
    }

    // Writes all of `bytes`; where a write fails, a first part of them was written. (`write_all` goes on after a call that a signal interrupts.)
    pub fn write(&mut self, bytes: &[u8]) -> Result<(), Told>
        ensures all { OnOk result (Appends (W.contents self.old.out) (W.contents self.new.out) bytes.now) }
        ensures part { WritesPart (W.contents self.old.out) (W.contents self.new.out) bytes.now }
        ensures count { IfErr result (λ told. told.written ≤ length bytes.now) }
        ensures counted { IfErr result (λ told. Appends (W.contents self.old.out) (W.contents self.new.out) (take told.written bytes.now)) }
    {
        let mut done = 0;
        while done < bytes.len() {
            match self.write_some(&bytes[done..]) {
                Ok(n) => done += n,
                Err(_) => return Err(Told { written: done }),
            }
        }
        Ok(())
    }
}
