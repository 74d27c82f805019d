// 13.3: the error-detection code.
#![tactic(auto)]

pub mod steps;

ghost use Rattle.std.specs.Prelude.{◌≡◌};
ghost use Rattle.edc.specs.Edc.{edc_of};

use big_endian::steps::double_word_at;

// The error-detection code of bytes, of any number.
pub fn edc(bytes: &[u8]) -> u32
    ensures { result ≡ edc_of bytes.now }
{
    let mut register = steps::FIRST;
    let eights = bytes.len() / 8;
    for k in 0..eights {
        register = steps::eight_more(register, double_word_at(bytes, 8 * k));
    }
    for &byte in &bytes[8 * eights..] {
        register = steps::byte_more(register, byte);
    }
    register
}
