// Four data frames at a time: a pass that unscrambles.
ghost use Rattle.std.specs.Prelude.{◌≡◌, length};
ghost use Rattle.cluster.specs.Reading.{user_in};
ghost use Rattle.ldc_words.specs.steps.Eighth.{user_of};
ghost use Rattle.sizes.specs.Sizes.{work_size, user_size};

// The user bytes of four data frames.
fn unscramble_users(frames: &[u8], stream: &[u8], user: &mut [u8])
    requires { (length frames.now ≡ 8208) × ((length stream.now ≡ 2052) × (length user.old ≡ 8192)) }
    ensures { user.new ≡ user_of stream.now frames.now }
{
    for f in 0..4 {
        let from = 2052 * f;
        let end = from + 2048;
        let to = 2048 * f;
        let past = to + 2048;
        scrambling::steps::scramble(&frames[from..end], stream, &mut user[to..past]);
    }
}

// The user bytes of a cluster.
pub fn user_bytes(work: &[u8], stream: &[u8], user: &mut [u8])
    requires { (length work.now ≡ work_size) × ((length stream.now ≡ 2052) × (length user.old ≡ user_size)) }
    ensures { user.new ≡ user_in stream.now work.now }
{
    let mut frames = ldc_words::steps::no_frames();
    for e in 0..8 {
        sector_reader::steps::take_frames(work, e, &mut frames);
        let from = 8192 * e;
        let end = from + 8192;
        unscramble_users(&frames, stream, &mut user[from..end]);
    }
}
