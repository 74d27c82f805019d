// Words and double words in slices of bytes, for the crates of this repository.
ghost use Rattle.std.specs.Prelude.{◌≡◌, ◌+◌, ◌≤◌, length, take, drop};
ghost use Rattle.big_endian.specs.Words.{word_at, eight_bytes};

// The word of the four bytes from `at` on.
pub fn word_at(bytes: &[u8], at: usize) -> u32
    requires { at + 4 ≤ length bytes.now }
    ensures { result ≡ word_at bytes.now at }
{
    crate::word(bytes[at], bytes[at + 1], bytes[at + 2], bytes[at + 3])
}

// The double word of the eight bytes from `at` on.
pub fn double_word_at(bytes: &[u8], at: usize) -> u64
    requires { at + 8 ≤ length bytes.now }
    ensures { eight_bytes result ≡ take 8 (drop at bytes.now) }
{
    u64::from(word_at(bytes, at)) * 0x1_0000_0000 + u64::from(word_at(bytes, at + 4))
}
