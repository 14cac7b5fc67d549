// Cuttings of a set into windows, and the theorem about the greedy cutting, as definitions and laws: no code.
#![tactic(auto)]
