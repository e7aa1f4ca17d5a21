// The marked cases of 01 have no code: the table stands in specs/, its claim in proofs/.
#![tactic(auto)]
