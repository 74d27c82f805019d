// FNV-1a with 64 bits.

// a times b, modulo 2^64.
pub fn times(a: u64, b: u64) -> u64 {
    let half = 0x1_0000_0000;
    let cross = std::num::wrapping_add_u64(a / half * (b % half), a % half * (b / half));
    std::num::wrapping_add_u64(a % half * (b % half), cross << 32)
}

// Of one byte behind those with the hash `before`.
pub fn more(before: u64, byte: u8) -> u64 {
    times(before ^ byte as u64, 0x100_0000_01b3)
}

// Of bytes behind those with the hash `before`.
pub fn behind(before: u64, bytes: &[u8]) -> u64 {
    let mut h = before;
    for k in 0..bytes.len() {
        h = more(h, bytes[k]);
    }
    h
}

// Of no bytes.
pub const NONE: u64 = 0xcbf2_9ce4_8422_2325;

pub fn of(bytes: &[u8]) -> u64 {
    behind(NONE, bytes)
}
