// The input, read as it comes: every whole line is answered before more is read.
ghost use Rattle.std.specs.Prelude.{◌≡◌, ◌+◌, ◌≤◌, length, IfOk};
ghost use Rattle.czg.specs.Private.{held};

use crate::lines::{MOST_LINE, cut};
use crate::serving::Service;
use console::Told;

// What was read of the last line, which has no end yet.
#[derive(Clone, Copy, PartialEq, Eq)]
enum Rest {
    // Its first bytes, so many.
    Held(usize),
    // More than a line may have, and its answer was given: the rest of it is passed over.
    Passed,
}

impl Rest {
    // How many bytes are held.
    fn count(self) -> usize
        ensures { result ≡ held self }
    {
        match self {
            Rest::Held(count) => count,
            Rest::Passed => 0,
        }
    }
}

impl Service<'_> {
    // Answers every whole line of what was read, and writes the answers.
    fn serve(&mut self, read: &[u8], before: Rest) -> Result<Rest, Told>
        ensures { IfOk result (λ rest. held rest ≤ length read.now) }
    {
        let mut rest = read;
        let mut passed = before == Rest::Passed;
        while let (line, Some(after)) = cut(rest, b'\n') {
            self.make_room()?;
            if !passed {
                self.answer_line(line);
            }
            passed = false;
            rest = after;
        }
        self.flush()?;
        if passed {
            return Ok(Rest::Passed);
        }
        Ok(Rest::Held(rest.len()))
    }

    // Holds the line that has no end yet at the start of the memory; one that is too long is answered.
    fn hold(&mut self, memory: &mut [u8], filled: usize, rest: Rest) -> Result<Rest, Told>
        requires { (held rest ≤ filled) × (filled ≤ length memory.old) }
        ensures { IfOk result (λ kept. held kept ≤ 16384) }
    {
        let count = rest.count();
        if MOST_LINE < count {
            self.answer_too_long();
            self.flush()?;
            return Ok(Rest::Passed);
        }
        memory.copy_within(filled - count..filled, 0);
        Ok(rest)
    }

    // Answers the whole input. The count of the reads is more than any input can take.
    pub(crate) fn run(&mut self) -> Result<(), Told> {
        let mut memory = [0u8; 65536];
        let mut rest = Rest::Held(0);
        for _ in 0..u64::MAX {
            let count = rest.count();
            let n = self.console.read_some(&mut memory[count..])?;
            if n == 0 {
                // the last line has no line feed
                self.answer_line(&memory[..count]);
                return self.flush();
            }
            let filled = count + n;
            rest = self.serve(&memory[..filled], rest)?;
            rest = self.hold(&mut memory, filled, rest)?;
        }
        Ok(())
    }
}
