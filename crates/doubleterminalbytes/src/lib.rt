// A terminal of double length whose record is 355 lent bytes (include/chizuregwo.h): the calls of `terminalbytes` with keys of sixteen bytes. Demand 3
// of them stands in proofs/.
#![tactic(auto)]
