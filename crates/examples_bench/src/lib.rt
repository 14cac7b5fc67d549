// The starred examples of document 01, as one table with one proof over it, about the definitions: no code.
#![tactic(auto)]
