// The exports of the C library (include/chizuregwo.h): each is the entry of the same name in chizuregwo, with its promise in C's numbers. They are
// alike, since C asks for one function for each.
#![tactic(auto)]

pub mod cards;
pub mod ciphers;
pub mod hosts;
pub mod messages;
pub mod passwords;
pub mod pins;
pub mod terminals;
pub mod versions;
pub mod vip_numbers;
