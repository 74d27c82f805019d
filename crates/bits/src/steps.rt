// Up to nine bits from any place.
ghost use Rattle.std.specs.Prelude.{◌≡◌, ◌+◌, ◌*◌, ◌<◌, ◌≤◌, length};
ghost use Rattle.bits.specs.Bits.{bits_of};
ghost use Rattle.bits.specs.steps.LowBits.{LowBits};

// Two bytes as one number.
fn both(first: u8, second: u8) -> u16
    ensures { (result ≡ first * 256 + second) × (second < 256) }
{
    first as u16 * 256 + second as u16
}

// Two bytes as one number, so shifted that its n low bits are those from `at` on.
pub fn low_bits(bytes: &[u8], at: usize, n: usize) -> u16
    requires { ((0 < n) × (n < 10)) × (at + n ≤ 8 * length bytes.now) }
    ensures { LowBits (bits_of bytes.now) at n result }
{
    let i = at / 8;
    let place = at % 8;
    let last = i + (place + n - 1) / 8;
    both(bytes[i], bytes[last]) >> (16 - n - place)
}
