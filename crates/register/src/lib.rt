// The register of 32 bytes by which a message is divided. `steps` is for the crates of this repository.
#![tactic(auto)]

pub mod steps;

// Entry 8192 k + 32 b + j is byte j of what byte b leaves when k zeros follow, k below 8.
pub type Remainders = [u8; 65536];

// 32 bytes and eight zeros: a loop over the 32 reads eight places ahead without a test, which would keep it from wide loads.
pub type Register = [u8; 40];
