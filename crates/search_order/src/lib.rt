// The order in which any search looks for the next step, variable by variable, as definitions and laws: specs/Lowest.antt,
// proofs/Lowest.antt.
#![tactic(auto)]
