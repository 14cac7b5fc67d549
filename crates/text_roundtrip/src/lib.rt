// From a sheet to its seed list and back to slices, and that no buffer of the texts is too short, as definitions and laws: no code.
#![tactic(auto)]
