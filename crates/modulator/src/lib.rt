// The 17PP modulator (13.17.2): a table made of the rows of Figure 38, by which data bits are modulated a byte at a time. The definitions are in specs;
// `modulator_states` and `modulator_table` make the table, `held_bits` reads it.
#![tactic(auto)]

// Entry 20 x + s: byte x of data bits in state s; from x = 256 on the last four bits of a frame. It is filled once and lent.
pub type Table = [u32; 5440];
