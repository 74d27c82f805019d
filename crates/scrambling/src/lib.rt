// 13.4: scrambling.
#![tactic(auto)]

pub mod steps;

ghost use Rattle.std.specs.Prelude.{◌≡◌};
ghost use Rattle.scrambling.specs.Scrambling.{shifts, scrambling_of};

use address::Psn;

// Eight shifts of the register. Bits 15, 14, 12 and 3 are fed back; in the last four shifts bit 3 is one that was fed back in the first four.
fn shifted_by_eight(s: u16) -> u16
    ensures { result ≡ shifts 8 s }
{
    let fed = ((s >> 8) ^ (s >> 7)) ^ ((s >> 5) ^ (s << 4));
    let early = fed % 256;
    (s << 8) ^ (early ^ (early >> 4))
}

// The scrambling bytes, the same for each data frame of a cluster.
pub fn scrambling(psn: Psn) -> [u8; 2052]
    ensures { result ≡ scrambling_of psn.0 }
{
    let mut stream = [0u8; 2052];
    let mut s = 0x8000 + (psn.0 / 32 % 0x8000) as u16;
    for byte in stream.iter_mut() {
        *byte = (s % 256) as u8;
        s = shifted_by_eight(s);
    }
    stream
}
