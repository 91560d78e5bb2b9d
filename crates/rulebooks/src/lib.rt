// Two rulebooks compared over bytes, as definitions and laws: specs/Under.antt, proofs/Wider.antt.
#![tactic(auto)]
