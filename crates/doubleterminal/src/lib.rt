// A DUKPT terminal of double length (02, M-105): the terminal with keys of sixteen bytes. What its loading and its call for the next key promise
// stands with `terminal::Terminal`; demand 3 of it stands in proofs/.
#![tactic(auto)]

use doublehost::DoubleKey;

// The record: twenty-one registers of sixteen bytes.
pub type Terminal = terminal::Terminal<DoubleKey>;
