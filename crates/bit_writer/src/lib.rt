// Bits written into a slice of bytes, the highest of each byte first.
#![tactic(auto)]

ghost use Rattle.std.specs.Prelude.{◌≡◌, [], ◌∷◌, ◌+◌, ◌*◌, ◌%◌, ◌<◌, set};
ghost use Rattle.std.proofs.lemmas.List.Edits.{sets};
ghost use Rattle.bits.specs.Bits.{bits_of, three_of};

// The byte with b, 0 or 1, as its bit `place`.
fn with_bit(byte: u8, place: usize, b: u8) -> u8
    requires { (place < 8) × (b < 2) }
    ensures { bits_of (result ∷ []) ≡ set (bits_of (byte ∷ [])) place b }
{
    let low = 7 - place;
    let weight = 1u8 << low;
    byte - (byte >> low) % 2 * weight + b * weight
}

// The bit b, 0 or 1, as bit `place` of byte i; past the end nothing is written.
fn put_bit(bytes: &mut [u8], i: usize, place: usize, b: u8)
    requires { (place < 8) × (b < 2) }
    ensures { bits_of bytes.new ≡ set (bits_of bytes.old) (8 * i + place) b }
{
    if i < bytes.len() {
        bytes[i] = with_bit(bytes[i], place, b);
    }
}

// The low bit of b at `at`; past the end nothing is written.
pub fn write_bit(bytes: &mut [u8], at: usize, b: u8)
    ensures { bits_of bytes.new ≡ set (bits_of bytes.old) at (b % 2) }
{
    put_bit(bytes, at / 8, at % 8, b % 2);
}

// The three low bits of v, the highest first, from `at` on; what would stand past the end is not written.
pub fn write_three(bytes: &mut [u8], at: usize, v: u8)
    ensures { bits_of bytes.new ≡ sets (bits_of bytes.old) at (three_of v) }
{
    let i = at / 8;
    let place = at % 8;
    put_bit(bytes, i, place, v / 4 % 2);
    put_bit(bytes, i + (place + 1) / 8, (place + 1) % 8, v / 2 % 2);
    put_bit(bytes, i + (place + 2) / 8, (place + 2) % 8, v % 2);
}
