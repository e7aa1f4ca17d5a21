// The arguments that programs share.
ghost use Rattle.std.specs.Prelude.{◌≡◌, ltb, IsTrue, ◌↔◌, false};
ghost use Rattle.std.specs.Io.KnownBytes.{Keeps};
ghost use Rattle.console.specs.Arguments.{AsksForHelp};
ghost use Rattle.console.specs.Counts.{IsPrefixLen, WritesPart};

use crate::console::Console;
use std::env::{Env, FillError};
use std::io::{Read, Write};

// How many arguments the program was started with, its own name among them.
pub fn argument_count<V: Env>(env: &V) -> usize {
    let mut room = [0u8; 1];
    (0..usize::MAX)
        .find(|i| matches!(env.arg(*i, &mut room), Err(FillError::NotPresent)))
        .unwrap_or(usize::MAX)
}

// Puts an argument at the start of `buf` and gives its length, or 0 where it is missing or longer than `buf`.
pub fn argument<V: Env>(env: &V, i: usize, buf: &mut [u8]) -> usize
    ensures { IsPrefixLen result buf.new }
{
    env.arg(i, buf).unwrap_or(0)
}

// Whether an argument asks what the program is.
pub fn asks_for_help(argument: &[u8]) -> bool
    ensures { IsTrue result ↔ AsksForHelp argument.now }
{
    matches!(argument, b"-h" | b"--help")
}

impl<R: Read, W: Write, E: Write> Console<'_, R, W, E> {
    // For a program that takes no arguments: answers those that it was started with and gives whether there were any. `count` counts them and the
    // program's name, and `argument` is the first. One alone that asks for help is answered with the help text on standard output, any other with the
    // usage line on standard error.
    pub fn answers_arguments(
        &mut self,
        count: usize,
        argument: &[u8],
        usage: &[u8],
        help: &[u8],
    ) -> bool
        ensures any { result ≡ ltb 1 count }
        ensures out { WritesPart (W.contents self.old.out) (W.contents self.new.out) help.now }
        ensures silent { result ≡ false → Keeps (W.contents self.old.out) (W.contents self.new.out) }
    {
        if count <= 1 {
            return false;
        }
        if count == 2 && asks_for_help(argument) {
            let _ = self.write(help);
        } else {
            let _ = self.errors.write_all(usage);
        }
        true
    }

    // Whether the program was started with arguments; they are then answered, as by `answers_arguments`.
    pub fn asked<V: Env>(&mut self, env: &V, usage: &[u8], help: &[u8]) -> bool
        ensures out { WritesPart (W.contents self.old.out) (W.contents self.new.out) help.now }
        ensures silent { result ≡ false → Keeps (W.contents self.old.out) (W.contents self.new.out) }
    {
        // room for the longest that asks for help
        let mut first = [0u8; 8];
        let n = argument(env, 1, &mut first);
        self.answers_arguments(argument_count(env), &first[..n], usage, help)
    }
}
