// Document 02, W-214: statements about runs of records, in specs/, shown in proofs/. No code.
#![tactic(auto)]
