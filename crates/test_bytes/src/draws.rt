// The generator by which the independent program drew its clusters.
use crate::hash::times;

// The next state, whose highest byte is drawn.
pub fn next(state: u64) -> u64 {
    std::num::wrapping_add_u64(times(state, 6364136223846793005), 1442695040888963407)
}

// Bytes drawn; the state behind them.
pub fn draw(state: u64, bytes: &mut [u8]) -> u64 {
    let mut x = state;
    for k in 0..bytes.len() {
        x = next(x);
        bytes[k] = (x / 0x100_0000_0000_0000) as u8;
    }
    x
}
