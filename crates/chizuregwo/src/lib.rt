// The C library: each entry takes lent bytes, writes its value into lent bytes, and answers the length written or the refusal. An entry's comment
// has its refusals in their order; include/chizuregwo.h says when it refuses with each. chizuregwo_c exports the entries to C, which gets numbers.
#![tactic(auto)]

mod answers;
pub mod cards;
pub mod ciphers;
pub mod hosts;
pub mod messages;
pub mod passwords;
pub mod pins;
pub mod terminals;
pub mod versions;
pub mod vip_numbers;
