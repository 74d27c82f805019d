// Test 11 on a recording from bit `at` on: its frames, two by two.
ghost use Rattle.std.specs.Prelude.{◌≡◌, ◌+◌, ◌<◌, length, drop};
ghost use Rattle.bits.specs.Bits.{bits_of};
ghost use Rattle.automaton.specs.steps.Table.{table};
ghost use Rattle.recording.specs.steps.Within.{Within};
ghost use Rattle.recording_frames.specs.steps.Read.{TwoFrames, FramesRead};
ghost use Rattle.sizes.specs.Sizes.{work_size, frame_count};

use automaton::Table;
use frame::TwoRead;

// Frames n and n + 1, their rows into their places of the cluster.
fn read_two(steps: &Table, image: &[u8], at: usize, n: usize, work: &mut [u8]) -> TwoRead
    requires { ((steps.now ≡ table) × Within image.now at) × ((n + 1 < frame_count) × (length work.old ≡ work_size)) }
    ensures { TwoFrames (drop at (bits_of image.now)) n work.old result.first result.second work.new }
{
    let hash = frame_sync::hash_at(image, at + sizes::FRAME * (n + 1));
    let sign = frame_sync::hash_at(image, at + sizes::FRAME * (n + 2));
    let first = frame_sync::sync_number(n);
    let second = frame_sync::sync_number(n + 1);
    let start = sizes::ROW * n;
    let end = start + 310;
    frame_reader::steps::read_two(
        steps,
        image,
        at + sizes::FRAME * n,
        first,
        second,
        hash,
        sign,
        &mut work[start..end],
    )
}

// Test 11: the lowest frame that no 1,268 bits give, if any; where there is none, all rows stand in the cluster and the dc words in dc.
pub fn read_frames(image: &[u8], at: usize, dc: &mut [u32], work: &mut [u8]) -> Option<usize>
    requires { Within image.now at × ((length dc.old ≡ frame_count) × (length work.old ≡ work_size)) }
    ensures { FramesRead (drop at (bits_of image.now)) result dc.new work.new }
{
    let mut steps = [0; 10368];
    demodulator_table::steps::fill_table(&mut steps);
    for pair in 0..sizes::FRAMES / 2 {
        let n = 2 * pair;
        let two = read_two(&steps, image, at, n, work);
        let Some(word) = two.first else {
            return Some(n);
        };
        let Some(next) = two.second else {
            return Some(n + 1);
        };
        dc[n] = word;
        dc[n + 1] = next;
    }
    None
}
