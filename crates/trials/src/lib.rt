// The starred trials of document 01: a table in specs/, shown of the definitions in proofs/. No code.
#![tactic(auto)]
