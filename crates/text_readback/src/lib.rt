// The seed list that is written is read back as what was written, as definitions and laws: no code.
#![tactic(auto)]
