// The expanding of a seed list as a definition, and what it gives of states that cover windows: no code.
#![tactic(auto)]
