// A terminal's record as lent bytes (include/chizuregwo.h), for any device: what stands after the registers, and whether a call has room. The
// bytes of a record, the calls with them and demand 3 over them stand in specs/ and proofs/.
#![tactic(auto)]

mod parts;
mod rooms;

pub use parts::{Rest, put, put_rest, rest_of};
pub use rooms::enough;
