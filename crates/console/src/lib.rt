// Standard input and standard output for programs: a read that fails is never taken for the end of the input, nor a write that fails for one that
// was done. Each failure is told in a line on standard error, after the program's name. A call that a signal interrupts counts as failed.
#![tactic(auto)]

mod arguments;
mod console;
mod numbers;

pub use arguments::{argument, argument_count, asks_for_help};
pub use console::{Console, Standard, Told};
pub use numbers::decimal;
