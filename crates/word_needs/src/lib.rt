// How many bits of a frame a word's modulation bits need (document 02, W-212): definitions and theorems. No code.
#![tactic(auto)]
