// Keys entered as hexadecimal text, and the hexadecimal text of bytes.
#![tactic(auto)]

mod decoding;
mod encoding;
mod entry;
mod hexadecimal;
mod units;

pub use decoding::text_bytes;
pub use encoding::append_text;
pub use entry::key_entry;
pub use units::Bytes;
