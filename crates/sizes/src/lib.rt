// Document 01's sizes, each named once; the definitions have them in specs/Sizes.
#![tactic(auto)]

// The user data of a cluster, in bytes.
pub const USER: usize = 65536;

// The side data, in bytes: flag bytes and user control data.
pub const SIDE: usize = 592;

// The recording frames of a cluster: as many rows has the ECC cluster, and as many dc words there are.
pub const FRAMES: usize = 496;

// The dc words as bytes, four each.
pub const DC: usize = 1984;

// A row of the ECC cluster, in bytes.
pub const ROW: usize = 155;

// The ECC cluster, in bytes: the work slice.
pub const WORK: usize = 76880;

// A modulated frame with its sync, in bits.
pub const FRAME: usize = 1932;

// The frames of a cluster, in bits.
pub const RECORDING: usize = 958272;

// The image, in bytes.
pub const IMAGE: usize = 119788;
