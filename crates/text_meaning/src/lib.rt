// What the replies to texts mean, as definitions and laws: no code.
#![tactic(auto)]
