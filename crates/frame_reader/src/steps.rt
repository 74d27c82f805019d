// Recording frames read strictly (13.15, 13.17.4).
ghost use Rattle.std.specs.Prelude.{◌≡◌, ◌+◌, ◌*◌, ◌<◌, ◌≤◌, length, take, drop, IfSome};
ghost use Rattle.bits.specs.Bits.{bits_of};
ghost use Rattle.automaton.specs.steps.Table.{table};
ghost use Rattle.modulation.specs.steps.Words.{Words};
ghost use Rattle.frame_sync.specs.Sync.{fs};
ghost use Rattle.frame.specs.Reading.{StrictlyRead};
ghost use Rattle.frame.specs.steps.Taken.{Taken};
ghost use Rattle.sizes.specs.Sizes.{frame_size, row_size};

use automaton::Table;
use demodulator::TwoWords;
use frame::TwoRead;
use frame_sync::steps::sync_end;

// The frame of the words, if there are any: then its row is left in the slice.
fn take_frame(words: Option<[u64; 29]>, row: &mut [u8]) -> Option<u32>
    requires { IfSome words Words × (length row.old ≡ row_size) }
    ensures { Taken words row.old result row.new }
{
    let words = words?;
    unweaving::steps::row_in(&words, row);
    Some(unweaving::steps::dc_in(&words))
}

// The frame whose sync stands at bit `at`; `hash` is # of the next sync. A frame found leaves its row in the slice. The table is lent:
// demodulator_table::steps::fill_table makes it.
pub fn read_frame(
    steps: &Table,
    image: &[u8],
    at: usize,
    number: usize,
    hash: bool,
    row: &mut [u8],
) -> Option<u32>
    requires { (steps.now ≡ table) × (((number < 7) × (length row.old ≡ row_size)) × ((at + frame_size ≤ 8 * length image.now) × (at + frame_size < 18446744073709551616))) }
    ensures { StrictlyRead (fs number) (take 1902 (drop (at + 30) (bits_of image.now))) hash row.old result row.new }
{
    let words = demodulator::steps::read_words(steps, image, at + 30, sync_end(number), hash);
    take_frame(words, row)
}

// The frames of words twice, if there are any: their rows are left in the slice, one behind the other.
fn take_two(words: TwoWords, rows: &mut [u8]) -> TwoRead
    requires { (IfSome words.first Words × IfSome words.second Words) × (length rows.old ≡ 310) }
    ensures { Taken words.first (take row_size rows.old) result.first (take row_size rows.new)
        × Taken words.second (drop row_size rows.old) result.second (drop row_size rows.new) }
{
    let first = take_frame(words.first, &mut rows[0..sizes::ROW]);
    let second = take_frame(words.second, &mut rows[sizes::ROW..310]);
    TwoRead { first, second }
}

// The same of two frames, one behind the other: `hash` and `sign` are # of the two next syncs, and the slice holds two rows.
pub fn read_two(
    steps: &Table,
    image: &[u8],
    at: usize,
    first: usize,
    second: usize,
    hash: bool,
    sign: bool,
    rows: &mut [u8],
) -> TwoRead
    requires { (steps.now ≡ table) × (((first < 7) × (second < 7)) × ((length rows.old ≡ 310) × ((at + 3864 ≤ 8 * length image.now) × (at + 3864 < 18446744073709551616)))) }
    ensures { StrictlyRead (fs first) (take 1902 (drop (at + 30) (bits_of image.now))) hash (take row_size rows.old) result.first (take row_size rows.new)
        × StrictlyRead (fs second) (take 1902 (drop (at + 1962) (bits_of image.now))) sign (drop row_size rows.old) result.second (drop row_size rows.new) }
{
    let words = demodulator::steps::read_two(
        steps,
        image,
        at + 30,
        at + 1962,
        sync_end(first),
        sync_end(second),
        hash,
        sign,
    );
    take_two(words, rows)
}
