// What the failure of a rule's test rests on, and what a step leaves as it was, as definitions and laws: specs/Rests.antt, proofs/Rests.antt,
// proofs/Changes.antt.
#![tactic(auto)]
