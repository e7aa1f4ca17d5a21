// PIN blocks, clear and encrypted (01, PIN blocks). The entries with a card number stand beside those without one, since each has its C entry and its
// definition; what they share is in functions.
#![tactic(auto)]

mod card_number;
mod encrypted;
mod half_bytes;
mod making;
mod pin;
mod reading;

pub use encrypted::{decrypt, decrypt_with_card, encrypt, encrypt_with_card};
pub use making::{make, make_with_card};
pub use reading::{read, read_with_card};
