// Worked calls: no code. Page 01's examples and what the calls answer to them stand in specs/, and the computed proofs in
// proofs/.
#![tactic(auto)]
