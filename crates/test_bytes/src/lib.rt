// Bytes for the tests: drawn, marked to be lent, hashed. It promises nothing but that it is safe and ends.
#![tactic(auto)]

pub mod draws;
pub mod hash;
pub mod lent;
