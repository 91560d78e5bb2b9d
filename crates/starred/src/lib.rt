// The starred bench sheets of the format, as one table over the jobs: specs/Starred.antt, proofs/Starred.antt.
#![tactic(auto)]
