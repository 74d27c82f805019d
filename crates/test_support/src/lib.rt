// What the test programs share: lines that are printed, slices compared, changed and copied. It promises nothing but that it is safe and ends.
#![tactic(auto)]

pub mod compare;
pub mod lines;
