// A terminal whose record is lent bytes (include/chizuregwo.h), for keys of any length: its loading, and the call for its next key.
#![tactic(auto)]

mod calls;
mod record;

pub use calls::{load, next_key};
