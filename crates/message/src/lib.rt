// A message's MAC text (01, The message and its MAC text).
#![tactic(auto)]

mod fields;
mod records;
mod text;

pub use text::message_text;
