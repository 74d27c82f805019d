// 13.5 to 13.8: the code words of the LDC block in the ECC cluster, an eighth at a time: 38 code words, of which the information bytes are four data
// frames. `steps` is for the crates of this repository.
#![tactic(auto)]

pub mod steps;

// 38 code words of 248 bytes, one behind the other.
pub type Words = [u8; 9424];

// Four data frames of 2,052 bytes: the information bytes of 38 code words, 216 of each.
pub type Frames = [u8; 8208];
