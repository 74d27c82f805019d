// Error-detection code and scrambling by themselves, of a cluster's 32 sectors, as a static library for bench/sectors, which measures them.
// Slices of other lengths are left as they are.
#![tactic(auto)]

ghost use Rattle.std.specs.Prelude.{◌≡◌, ◌≤◌, length};
ghost use Rattle.scrambling.specs.Scrambling.{scrambling_of};

use address::Psn;

// The scrambling bytes of a cluster.
#[unsafe(no_mangle)]
pub extern "C" fn sectors_stream(psn: u32, stream: &mut [u8])
    ensures { length stream.old ≡ 2052 → stream.new ≡ scrambling_of psn }
{
    if stream.len() != 2052 {
        return;
    }
    let made = scrambling::scrambling(Psn(psn));
    stream.copy_from_slice(&made);
}

// The data frames of all sectors, one behind the other.
#[unsafe(no_mangle)]
pub extern "C" fn sectors_write(user: &[u8], stream: &[u8], frames: &mut [u8]) {
    if user.len() != 65536 {
        return;
    }
    if frames.len() != 65664 {
        return;
    }
    for f in 0..32usize {
        let from = 2048 * f;
        let end = from + 2048;
        let to = 2052 * f;
        let past = to + 2052;
        sector::data_frame(&user[from..end], stream, &mut frames[to..past]);
    }
}

// The first sector whose error-detection code is wrong; 32 where all are right.
#[unsafe(no_mangle)]
pub extern "C" fn sectors_first_wrong(frames: &[u8], stream: &[u8]) -> usize
    ensures { result ≤ 32 }
{
    if frames.len() != 65664 {
        return 0;
    }
    for f in 0..32usize {
        let from = 2052 * f;
        let end = from + 2052;
        if !sector::edc_right(&frames[from..end], stream) {
            return f;
        }
    }
    32
}

// The user bytes of all sectors.
#[unsafe(no_mangle)]
pub extern "C" fn sectors_read(frames: &[u8], stream: &[u8], user: &mut [u8]) {
    if stream.len() != 2052 {
        return;
    }
    if frames.len() != 65664 {
        return;
    }
    if user.len() != 65536 {
        return;
    }
    for f in 0..32usize {
        let from = 2052 * f;
        let end = from + 2048;
        let to = 2048 * f;
        let past = to + 2048;
        scrambling::steps::scramble(&frames[from..end], stream, &mut user[to..past]);
    }
}
