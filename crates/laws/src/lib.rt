// Definitions and laws on lists and numbers that the other crates cite. No code.
#![tactic(auto)]
