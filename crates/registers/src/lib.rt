// What the terminals of DUKPT have in common: the counters, the positions that they bring a terminal into, the serial number, and what the host
// looks at before it derives a key.
// The register machine, its promises and demand 3, for any device, stand in specs/ and proofs/.
#![tactic(auto)]

mod counters;
mod derivations;
mod positions;
mod serial_number;

pub use counters::{Counter, lowest_place, permitted};
pub use derivations::derivable;
pub use positions::Position;
pub use serial_number::{Tail, cleared_head, cleared_tail, counter_of, with_counter};
