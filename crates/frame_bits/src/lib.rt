// 13.15: the bits of a recording frame; `weaving` makes them, `unweaving` takes them apart. `steps` is for the crates of this repository.
#![tactic(auto)]

pub mod steps;
