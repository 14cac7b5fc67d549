// The stop slice steps as definitions, and what a stop slice is good for: no code.
#![tactic(auto)]
