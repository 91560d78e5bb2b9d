// What all jobs over a sheet share, as definitions with their laws: a sheet, and what is done over its problem. Each job has a room of its own.
#![tactic(auto)]
