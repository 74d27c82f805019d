// 13.7, 13.12, 13.9.2.2: columns of the Reed-Solomon codes. The definition is in specs; `column_parity` and `parity` make their parity, by
// `code_word` and byte by byte; `code_word` and `roots` test them.
#![tactic(auto)]
