// Data bits to modulation bits by the rows of Figure 38 (13.17.2), a few pairs at a time: types and definitions. `conversion_rows` has the rows, `few_pairs` the
// conversion.
#![tactic(auto)]

// When a row may be taken.
#[derive(Clone, Copy)]
pub enum When {
    Always,
    AfterOne,
    AfterZero,
    Before010,
    AtEnd,
}

// A row of Figure 38: how many pairs it has, its data bits, its modulation bits, and when it may be taken.
#[derive(Clone, Copy)]
pub struct Row {
    pub pairs: usize,
    pub data_bits: u8,
    pub modulation_bits: u16,
    pub when: When,
}

// What a few pairs give: their modulation bits as a number, and whether a terminating row ended them.
#[derive(Clone, Copy)]
pub struct Few {
    pub value: u32,
    pub terminated: bool,
}
