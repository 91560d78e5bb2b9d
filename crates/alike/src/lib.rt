// That every job but the move answers alike on a sheet and on the moved one, as laws: proofs/Alike.antt, proofs/Crossed.antt.
#![tactic(auto)]
