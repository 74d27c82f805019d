// The register, eight bytes or one at a time, for the crates of this repository.
ghost use Rattle.std.specs.Prelude.{◌≡◌, List, [], ◌∷◌, ◌++◌, ℕ, ◌*◌, ◌-◌, ◌/◌, ◌%◌, ◌^◌};
ghost use Rattle.std.specs.Int.Bits.{bit_xor};
ghost use Rattle.big_endian.specs.Words.{eight_bytes};
ghost use Rattle.edc.specs.Edc.{edc_of};

use bit_sums::steps::sums;

// The register before the first byte.
pub const FIRST: u32 = 0;

// Bits 31 to 0.
fn low(v: u64) -> u32
    ensures { result ≡ v % 2 ^ 32 }
{
    (v % 0x1_0000_0000) as u32
}

// The sum of all bits of w, in each of 32 bits: so the sums go on where 32 zeros follow w.
fn sum_below(w: u32) -> u32
    ensures { (s : ℕ) → bit_xor s (s / 2) ≡ w → result ≡ s % 2 * (2 ^ 32 - 1) }
{
    u32::count_ones(w) % 2 * 0xffff_ffff
}

// What q(x) G(x) has below x^32.
fn below(q: u32) -> u32
    ensures { result ≡ bit_xor (bit_xor (q * 2 ^ 31 % 2 ^ 32) (q * 2 ^ 4 % 2 ^ 32)) q }
{
    (q << 31) ^ (q << 4) ^ q
}

// The register after eight bytes more. v(x) is the register, 32 bits up, with the eight bytes. Of the quotient of v(x) x^32 by G(x) bits 31 to 0
// are enough: those above have no part below x^32.
pub fn eight_more(register: u32, eight: u64) -> u32
    ensures { (bytes : List ℕ) → register ≡ edc_of bytes → result ≡ edc_of (bytes ++ eight_bytes eight) }
{
    let v = u64::from(register) * 0x1_0000_0000 ^ eight;
    let s = low(sums(eight)) ^ sum_below(register);
    // G(x) is x^31 (x + 1) + (x^4 + 1). Sums divide by x + 1; x^4 + 1 brings v in 28 and 30 bits lower, and these again 56, 57, 60 and 61.
    let q = s ^ low((v >> 28) ^ (v >> 30)) ^ low(((v >> 56) ^ (v >> 60)) ^ ((v >> 57) ^ (v >> 61)));
    below(q)
}

// The register after one byte more.
pub fn byte_more(register: u32, byte: u8) -> u32
    ensures { (bytes : List ℕ) → register ≡ edc_of bytes → result ≡ edc_of (bytes ++ (byte ∷ [])) }
{
    let q = low(sums(u64::from(register >> 24) ^ u64::from(byte)));
    below(q) ^ (register << 8)
}
