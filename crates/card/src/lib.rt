// A card's keys and the cryptograms of its transactions (01, The card's keys and cryptograms).
#![tactic(auto)]

mod cryptograms;
mod derivation;
mod double_key;
mod keys;

pub use cryptograms::{arpc, arqc};
pub use derivation::derivation_data;
pub use keys::{card_key, session_key, unadjusted_card_key};
