// The automaton that demodulates (13.17.2), strictly, by groups of modulation bits. The definitions are in specs; `automaton_tables` has its transitions,
// `demodulator_table` makes and reads its table.
#![tactic(auto)]

// Two groups at each state, then three. It is filled once and lent.
pub type Table = [u16; 10368];
