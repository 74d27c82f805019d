// Document 02, W-208: statements about the definitions of other crates, in specs/, shown in proofs/. No code.
#![tactic(auto)]
