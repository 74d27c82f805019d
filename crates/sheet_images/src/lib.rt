// Document 02, W-211: a statement about the definitions of other crates, in specs/, shown in proofs/. No code.
#![tactic(auto)]
