// The history: no code. What the engine's calls and answers, taken together, promise stands in specs/, and its proof
// in proofs/.
#![tactic(auto)]
