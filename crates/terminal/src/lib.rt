// A DUKPT terminal (01, Terminal keys), for keys of any length: its record, loading, and the call for its next key.
#![tactic(auto)]

mod calls;
mod filling;
mod giving;
mod loading;
mod state;

pub use calls::{Given, NextKey};
pub use state::Terminal;
