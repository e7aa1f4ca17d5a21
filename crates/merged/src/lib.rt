// The tables of DES that are read quickly: for the rounds eight of 64 words, an S-box, the permutation P after it and the
// expansion E before the next in one; for the key schedule two of 128 words. `cipher` proves that they agree with FIPS 46-3.
#![tactic(auto)]

mod choice_words;
mod round_words;
mod words;

pub use words::{choice, substituted};
