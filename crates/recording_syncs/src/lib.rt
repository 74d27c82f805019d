// 13.17.4: the syncs of a recording from any bit on: judged, test 10, and the first #. `steps` is for the crates of this repository.
#![tactic(auto)]

pub mod steps;
