// How often each gap length occurs in a frame: the answer of the tally program (document 01).
#![tactic(auto)]

ghost use Rattle.std.specs.Prelude.{◌≡◌, ◌<◌, length};
ghost use Rattle.gaps.specs.Gaps.{gap_counts};
ghost use Rattle.frame_sync.specs.Sync.{fs};
ghost use Rattle.frame.specs.Frame.{frame};
ghost use Rattle.frame_gaps.specs.Tally.{tallied};
ghost use Rattle.sizes.specs.Sizes.{row_size};

use big_endian::steps::word_at;
use frame::State;

// The counts of the frame of a row and a dc word.
fn frame_counts(row: &[u8], dc: u32, number: usize, hash: bool) -> [u32; 8]
    requires { (length row.now ≡ row_size) × (number < 7) }
    ensures { result ≡ gap_counts (frame hash (fs number) row.now dc) }
{
    let mut table = modulator_table::steps::no_table();
    modulator_table::steps::fill_table(&mut table);
    let mut image = frame_writer::steps::blank();
    frame_writer::steps::write_frame(&table, row, dc, number, State { hash }, &mut image, 0);
    gaps::steps::gap_counts(&image, sizes::FRAME)
}

// The tally's answer to its input, # (0 or 1), sync number, dc word in four bytes, 155 frame bytes: the counts of the gap lengths 1 to 8. Other
// input is refused.
pub fn tally_of(input: &[u8]) -> Option<[u32; 8]>
    ensures { result ≡ tallied input.now }
{
    if input.len() != 161 {
        return None;
    }
    let hash = input[0];
    if 1 < hash {
        return None;
    }
    let number = input[1];
    if 6 < number {
        return None;
    }
    let dc = word_at(input, 2);
    if 0x0fff_ffff < dc {
        return None;
    }
    Some(frame_counts(&input[6..], dc, number as usize, hash == 1))
}
