// Worked texts, as one table with one proof over it, about the definitions: no code.
#![tactic(auto)]
