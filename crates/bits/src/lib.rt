// The bits of a slice of bytes, the highest of each byte first: read. `steps` is for the crates of this repository.
#![tactic(auto)]

pub mod steps;

ghost use Rattle.std.specs.Prelude.{◌≡◌, get_or};
ghost use Rattle.bits.specs.Bits.{bits_of};
ghost use Rattle.bits.specs.Step.{step_at};

// Three bits as a number, or 8, and the next position.
#[derive(Clone, Copy)]
pub struct Step {
    pub value: u8,
    pub next: usize,
}

// The bit at `at`; 0 past the end.
pub fn read_bit(bytes: &[u8], at: usize) -> u8
    ensures { result ≡ get_or (bits_of bytes.now) at 0 }
{
    let i = at / 8;
    if bytes.len() <= i {
        return 0;
    }
    (bytes[i] >> (7 - at % 8)) % 2
}

// One step of the image reader.
pub fn read_three(bytes: &[u8], at: usize) -> Step
    ensures { result ≡ step_at (bits_of bytes.now) at }
{
    let i = at / 8;
    let place = at % 8;
    let last = i + (place + 2) / 8;
    if bytes.len() <= last {
        return Step { value: 8, next: at };
    }
    let value = (steps::low_bits(bytes, at, 3) % 8) as u8;
    if 18446744073709551612 < at {
        return Step { value, next: at };
    }
    Step {
        value,
        next: at + 3,
    }
}
