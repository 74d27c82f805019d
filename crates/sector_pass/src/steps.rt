// Eight bytes at a step as far as the stream reaches, then one.
ghost use Rattle.std.specs.Prelude.{◌≡◌, min, ◌/◌, length, get_or};
ghost use Rattle.big_endian.specs.Words.{word_at};
ghost use Rattle.sector_pass.specs.Pass.{PassWriting, PassReading};

use big_endian::steps::double_word_at;
use big_endian::{double_word_bytes, word};
use edc::steps::{FIRST, byte_more, eight_more};

// How many whole eights of a sector have bytes of the stream beside them.
fn eights(stream: &[u8]) -> usize
    ensures { result ≡ min 2048 (length stream.now) / 8 }
{
    stream.len().min(2048) / 8
}

// Byte k of the stream; behind its end 0.
fn stream_byte(stream: &[u8], k: usize) -> u8
    ensures { result ≡ get_or stream.now k 0 }
{
    stream.get(k).copied().unwrap_or(0)
}

// The four scrambling bytes of the error-detection code, as a word.
pub fn code_stream(stream: &[u8]) -> u32
    ensures { result ≡ word_at stream.now 2048 }
{
    word(
        stream_byte(stream, 2048),
        stream_byte(stream, 2049),
        stream_byte(stream, 2050),
        stream_byte(stream, 2051),
    )
}

// Writes the scrambled user bytes; the register at their end is the error-detection code.
pub fn write(user: &[u8], stream: &[u8], frame: &mut [u8]) -> u32
    requires { (length user.now ≡ 2048) × (length frame.old ≡ 2052) }
    ensures { PassWriting user.now stream.now frame.old 2048 frame.new result }
{
    let mut register = FIRST;
    let whole = eights(stream);
    for k in 0..whole {
        let at = 8 * k;
        let past = at + 8;
        let eight = double_word_at(user, at);
        let scrambled = eight ^ double_word_at(stream, at);
        frame[at..past].copy_from_slice(&double_word_bytes(scrambled));
        register = eight_more(register, eight);
    }
    for k in 8 * whole..2048 {
        let byte = user[k];
        frame[k] = byte ^ stream_byte(stream, k);
        register = byte_more(register, byte);
    }
    register
}

// The register after the first 2,048 bytes of a scrambled data frame, unscrambled.
pub fn read(frame: &[u8], stream: &[u8]) -> u32
    requires { length frame.now ≡ 2052 }
    ensures { PassReading frame.now stream.now 2048 result }
{
    let mut register = FIRST;
    let whole = eights(stream);
    for k in 0..whole {
        let at = 8 * k;
        let plain = double_word_at(frame, at) ^ double_word_at(stream, at);
        register = eight_more(register, plain);
    }
    for k in 8 * whole..2048 {
        register = byte_more(register, frame[k] ^ stream_byte(stream, k));
    }
    register
}
