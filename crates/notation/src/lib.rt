// How the programs' arguments and files write a PSN, the first # and the dc words.
#![tactic(auto)]

ghost use Rattle.std.specs.Prelude.{◌≡◌, ◌<◌, ◌≤◌, SomeIff};
ghost use Rattle.sizes.specs.Sizes.{frame_count};
ghost use Rattle.notation.specs.Psn.{digit_of, psn_of};
ghost use Rattle.notation.specs.FirstHash.{first_of};
ghost use Rattle.notation.specs.Words.{word_count, words_read, bytes_read};

use address::Psn;
use big_endian::steps::word_at;
use big_endian::word_bytes;

// The value of a hexadecimal digit.
#[tactic(auto, unfolding(crate::specs::Psn::digit_of))]
pub fn digit(byte: u8) -> Option<u32>
    ensures { SomeIff result (digit_of byte < 16) (digit_of byte) }
{
    match byte {
        b'0'..=b'9' => Some((byte - b'0') as u32),
        b'A'..=b'F' => Some((byte - b'A' + 10) as u32),
        b'a'..=b'f' => Some((byte - b'a' + 10) as u32),
        _ => None,
    }
}

// Eight hexadecimal digits, the highest first. Document 01 has no number for another text.
pub fn psn_of(text: &[u8]) -> Option<Psn>
    ensures { result ≡ psn_of text.now }
{
    if text.len() != 8 {
        return None;
    }
    let mut value = 0;
    for &byte in text {
        value = value * 16 + digit(byte)?;
    }
    Some(Psn(value))
}

// 0 for ZERO, 1 for ONE.
#[tactic(auto, unfolding(crate::specs::FirstHash::first_of))]
pub fn first_of(text: &[u8]) -> Option<bool>
    ensures { result ≡ first_of text.now }
{
    match text {
        b"0" => Some(false),
        b"1" => Some(true),
        _ => None,
    }
}

// How many dc words so many bytes hold: 496 are 1,984 bytes, and no other number holds any.
pub fn word_count(bytes: usize) -> usize
    ensures { (result ≤ frame_count) × (result ≡ word_count bytes) }
{
    if bytes == sizes::DC { sizes::FRAMES } else { 0 }
}

// The 496 dc words of 1,984 bytes, high byte first. Slices of other lengths stay as they were.
#[tactic(auto, unfolding(crate::specs::Words::words_read))]
pub fn words_of(bytes: &[u8], words: &mut [u32])
    ensures { words.new ≡ words_read bytes.now words.old }
{
    if bytes.len() != sizes::DC || words.len() != sizes::FRAMES {
        return;
    }
    for (n, word) in words.iter_mut().enumerate() {
        *word = word_at(bytes, 4 * n);
    }
}

// The 1,984 bytes of 496 dc words. Slices of other lengths stay as they were.
#[tactic(auto, unfolding(crate::specs::Words::bytes_read))]
pub fn bytes_of(words: &[u32], bytes: &mut [u8])
    ensures { bytes.new ≡ bytes_read words.now bytes.old }
{
    if words.len() != sizes::FRAMES || bytes.len() != sizes::DC {
        return;
    }
    for (k, byte) in bytes.iter_mut().enumerate() {
        *byte = word_bytes(words[k / 4])[k % 4];
    }
}
