// 13.2 to 13.4: data frames of sectors.
#![tactic(auto)]

ghost use Rattle.std.specs.Prelude.{◌≡◌};
ghost use Rattle.scrambling.specs.Scrambling.{scrambled};
ghost use Rattle.sector.specs.DataFrame.{edc_right, framed, framed_of};

use big_endian::steps::word_at;
use big_endian::word_bytes;
use sector_pass::steps as pass;

// The scrambled data frame of a sector's 2,048 user bytes, in a frame of 2,052; false, and the frame as it was, at other lengths.
pub fn data_frame(user: &[u8], stream: &[u8], frame: &mut [u8]) -> bool
    ensures { framed result frame.new ≡ framed_of user.now stream.now frame.old }
{
    if user.len() != 2048 {
        return false;
    }
    if frame.len() != 2052 {
        return false;
    }
    let code = pass::write(user, stream, frame) ^ pass::code_stream(stream);
    frame[2048..2052].copy_from_slice(&word_bytes(code));
    true
}

// Whether these are 2,052 bytes of which, unscrambled, the last four are the error-detection code of those before.
pub fn edc_right(frame: &[u8], stream: &[u8]) -> bool
    ensures { result ≡ edc_right (scrambled stream.now frame.now) }
{
    if frame.len() != 2052 {
        return false;
    }
    word_at(frame, 2048) ^ pass::code_stream(stream) == pass::read(frame, stream)
}
