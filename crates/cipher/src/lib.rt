// DES and two-key triple DES on words of 64 bits (FIPS 46-3). A word's highest bit is bit 1 of the standard, and the
// low bit of each key byte has no effect.
#![tactic(auto)]

mod bits;
mod checks;
mod des;
mod exchange;
mod key_schedule;
mod keys;
mod printed;
mod rounds;
mod schedule;
mod tables;
mod triple;

pub use checks::{Check, self_test};
pub use des::{decrypt, encrypt};
pub use keys::same_key;
pub use schedule::Schedule;
pub use triple::{triple_decrypt, triple_encrypt};
