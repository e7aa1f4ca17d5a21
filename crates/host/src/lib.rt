// The host's keys of a DUKPT terminal (01, Terminal keys), for keys of any length, and the steps by which the terminal derives its own.
#![tactic(auto)]

mod derivation;
mod entries;
mod keys;

pub use entries::{host_key, initial_key};
pub use keys::{RegisterKey, step};
