// What bytes leave in the register of 32 bytes: the table by which eight bytes of a message go in at once. `steps` fills it, for the crates of this
// repository.
#![tactic(auto)]

pub mod steps;

// Made at run time by whoever lends it: reading a constant would copy its 64 KB.
pub type Remainders = register::Remainders;
