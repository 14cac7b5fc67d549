// Covering (document 01, "Covering and cutting"): which states deliver a window and stop after it, and which parts of a set are windows, as definitions and laws; the search is built over them: no code.
#![tactic(auto)]
