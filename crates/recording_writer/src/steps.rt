// The frames of a recording, one behind the other.
ghost use Rattle.std.specs.Prelude.{◌≡◌, ◌+◌, ◌*◌, ◌<◌, length, get_or};
ghost use Rattle.modulation.specs.Sync.{sync_number};
ghost use Rattle.modulator.specs.steps.Table.{lent_table};
ghost use Rattle.frame_writer.specs.steps.Written.{FrameWritten};
ghost use Rattle.cluster.specs.EccCluster.{row_of};
ghost use Rattle.recording_writer.specs.steps.Written.{FramesWritten};
ghost use Rattle.sizes.specs.Sizes.{work_size, frame_count, frame_size, recording_size};

use frame::State;
use modulator::Table;

// Frame n from the row that is shown of the cluster, in its place in a recording from bit `at` on.
fn put_frame(
    table: &Table,
    work: &[u8],
    dc: &[u32],
    n: usize,
    state: State,
    image: &mut [u8],
    at: usize,
) -> State
    requires { ((table.now ≡ lent_table) × ((length work.now ≡ work_size) × (length dc.now ≡ frame_count))) × ((n < frame_count) × (at + recording_size < 18446744073709551616)) }
    ensures { FrameWritten (sync_number n) state.hash (row_of work.now n) (get_or dc.now n 0) image.old (at + frame_size * n) image.new result.hash }
{
    let row = cluster::row(work, n);
    let number = frame_sync::sync_number(n);
    frame_writer::steps::write_frame(
        table,
        row,
        dc[n],
        number,
        state,
        image,
        at + sizes::FRAME * n,
    )
}

// The 496 frames, from bit `at` on. `first` has # of the first sync, and the answer # of the sync behind them.
pub fn put_frames(work: &[u8], dc: &[u32], first: State, image: &mut [u8], at: usize) -> State
    requires { ((length work.now ≡ work_size) × (length dc.now ≡ frame_count)) × (at + recording_size < 18446744073709551616) }
    ensures { FramesWritten first.hash work.now dc.now image.old at frame_count image.new result.hash }
{
    let mut table = modulator_table::steps::no_table();
    modulator_table::steps::fill_table(&mut table);
    let mut state = first;
    for n in 0..sizes::FRAMES {
        state = put_frame(&table, work, dc, n, state, image, at);
    }
    state
}
