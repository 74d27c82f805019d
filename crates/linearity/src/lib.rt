// Document 02, W-210: statements about the definitions of other crates, in specs/, shown in proofs/. No code.
#![tactic(auto)]
