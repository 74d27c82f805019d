// Data frames, four at a time, and the test of their EDC: one pass over each sector.
ghost use Rattle.std.specs.Prelude.{◌≡◌, ◌<◌, length, SomeIff};
ghost use Rattle.laws.specs.First.{first};
ghost use Rattle.ldc.specs.Places.{frame_in};
ghost use Rattle.cluster.specs.Multiplex.{ldc_in};
ghost use Rattle.cluster.specs.Reading.{first_wrong_sector};
ghost use Rattle.ldc_words.specs.steps.Eighth.{frames_of, wrong_frame};
ghost use Rattle.sizes.specs.Sizes.{work_size};

// Data frames 4 e to 4 e + 3 of a cluster, as they stand there.
pub fn take_frames(work: &[u8], e: usize, frames: &mut [u8])
    requires { ((length work.now ≡ work_size) × (length frames.old ≡ 8208)) × (e < 8) }
    ensures { frames.new ≡ frames_of (frame_in (ldc_in work.now)) e }
{
    let mut words = ldc_words::steps::no_words();
    ldc_words::steps::take_words(work, e, 216, &mut words);
    ldc_words::steps::take_information(&words, frames);
}

// The lowest of four sectors whose EDC is wrong.
fn first_wrong_frame(frames: &[u8], stream: &[u8]) -> Option<usize>
    requires { length frames.now ≡ 8208 }
    ensures { SomeIff result (first 4 (wrong_frame stream.now frames.now) < 4) (first 4 (wrong_frame stream.now frames.now)) }
{
    for f in 0..4 {
        let from = 2052 * f;
        let end = from + 2052;
        if !sector::edc_right(&frames[from..end], stream) {
            return Some(f);
        }
    }
    None
}

// The lowest sector whose EDC is wrong.
pub fn first_wrong_sector(work: &[u8], stream: &[u8]) -> Option<usize>
    requires { length work.now ≡ work_size }
    ensures { SomeIff result (first_wrong_sector stream.now work.now < 32) (first_wrong_sector stream.now work.now) }
{
    let mut frames = ldc_words::steps::no_frames();
    for e in 0..8 {
        take_frames(work, e, &mut frames);
        if let Some(f) = first_wrong_frame(&frames, stream) {
            return Some(4 * e + f);
        }
    }
    None
}
