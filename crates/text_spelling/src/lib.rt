// What is read is spelt as it would be written, as definitions and laws: no code.
#![tactic(auto)]
