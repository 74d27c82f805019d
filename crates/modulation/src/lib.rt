// Definitions and theorems of 17PP modulation. No code.
#![tactic(auto)]
