// The number of every answer is 0 or one of the refusal sheet: no code.
#![tactic(auto)]
