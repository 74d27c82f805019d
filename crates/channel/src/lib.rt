// NRZI channel bits and their digital-sum value (13.18; document 02, W-204): definitions and laws. No code.
#![tactic(auto)]
