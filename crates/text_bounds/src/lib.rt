// How many lines and bytes a text can have, as definitions and laws: no code.
#![tactic(auto)]
