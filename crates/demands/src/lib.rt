// The three demands, each one theorem: specs/Demand1.antt to Demand3.antt, and proofs/ of the same names.
#![tactic(auto)]
