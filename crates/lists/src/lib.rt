// Definitions and laws on lists, rows and counts, in specs/. No code.
#![tactic(auto)]
