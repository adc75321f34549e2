// The box promise: what it claims stands in specs, its proof in proofs. No function of its own.
#![tactic(auto)]
