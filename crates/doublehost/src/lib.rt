// Keys of a DUKPT terminal of double length (02, M-105; ANS X9.24-1).
#![tactic(auto)]

mod device;
mod keys;

pub use keys::DoubleKey;
