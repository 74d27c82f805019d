// Words, numbers of 32 bits, and their four bytes; double words, of 64 bits, and their eight; the highest first.
#![tactic(auto)]

pub mod steps;

ghost use Rattle.std.specs.Prelude.{◌≡◌};
ghost use Rattle.big_endian.specs.Words.{word_of, four_bytes, eight_bytes};

// The word of four bytes.
pub fn word(a: u8, b: u8, c: u8, d: u8) -> u32
    ensures { result ≡ word_of a b c d }
{
    u32::from_be_bytes([a, b, c, d])
}

// The four bytes of a word.
pub fn word_bytes(word: u32) -> [u8; 4]
    ensures { result ≡ four_bytes word }
{
    word.to_be_bytes()
}

// The eight bytes of a double word.
pub fn double_word_bytes(double: u64) -> [u8; 8]
    ensures { result ≡ eight_bytes double }
{
    double.to_be_bytes()
}
