// What the entries share: the refusals and their numbers, what C gets of a call, words and characters in lent memory.
#![tactic(auto)]

mod answers;
mod buffers;
mod characters;
mod checks;
mod framing;
mod half_bytes;
mod memory;
mod refusals;
mod sizes;
mod texts;
mod words;

pub use answers::Answer;
pub use buffers::extend;
pub use characters::{Kind, all_digits, all_of_kind, between, capitalized, is_digit, two_digits};
pub use checks::permitted;
pub use framing::{framed, framed_text};
pub use half_bytes::with_half_bytes;
pub use memory::{append, double_bytes_of, lend};
pub use refusals::Refusal;
pub use sizes::{card_sized, key_size, sized};
pub use texts::{same, starts_with};
pub use words::{byte_at, bytes_of, number_of, right_half, wide, word_of};
