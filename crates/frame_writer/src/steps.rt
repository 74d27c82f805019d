// A recording frame written (13.15, 13.17) from any bit of an image on, behind its sync.
ghost use Rattle.std.specs.Prelude.{◌≡◌, ◌+◌, ◌*◌, ◌%◌, ◌<◌, ◌≤◌, length, take};
ghost use Rattle.std.proofs.lemmas.List.Edits.{sets};
ghost use Rattle.bits.specs.Bits.{bits_of};
ghost use Rattle.frame_sync.specs.Sync.{fs};
ghost use Rattle.frame_writer.specs.steps.Written.{FrameWritten};
ghost use Rattle.modulator.specs.steps.Table.{lent_table};
ghost use Rattle.sizes.specs.Sizes.{frame_size, row_size};

use frame::State;
use modulator::Table;

// The frame of a row and a dc word, from bit `at` of the image on, a multiple of four, where there is room for it.
fn write_whole(
    table: &Table,
    row: &[u8],
    dc: u32,
    number: usize,
    hash: bool,
    image: &mut [u8],
    at: usize,
) -> bool
    requires { ((table.now ≡ lent_table) × (length row.now ≡ row_size)) × ((number < 7) × ((at % 4 ≡ 0) × (at + frame_size ≤ 8 * length image.old))) }
    ensures { FrameWritten (fs number) hash row.now dc image.old at image.new result }
{
    let sync = frame_sync::steps::sync_word(hash, number);
    let from = at / 8;
    let to = from + 242;
    if at % 8 == 0 {
        let last = image[from + 241] % 16;
        return frame_modulation::steps::modulate(
            table,
            row,
            dc,
            sync,
            30,
            last,
            &mut image[from..to],
        );
    }
    let first = u64::from(image[from]) / 16 * 1073741824 + sync;
    frame_modulation::steps::modulate(table, row, dc, first, 34, 0, &mut image[from..to])
}

// Room for a frame.
pub fn blank() -> [u8; 242]
    ensures { length result ≡ 242 }
{
    [0u8; 242]
}

// The first 1,932 bits of 242 bytes, from bit `at` of the image on, one by one.
fn copy_bits(bytes: &[u8], image: &mut [u8], at: usize)
    requires { (length bytes.now ≡ 242) × (at + frame_size < 18446744073709551616) }
    ensures { bits_of image.new ≡ sets (bits_of image.old) at (take frame_size (bits_of bytes.now)) }
{
    for k in 0..sizes::FRAME {
        bit_writer::write_bit(image, at + k, bits::read_bit(bytes, k));
    }
}

// The frame of a row and a dc word, from bit `at` of the image on; `state` is what the frame before it handed on, and the answer what this one hands
// on. What would stand past the end is not written.
pub fn write_frame(
    table: &Table,
    row: &[u8],
    dc: u32,
    number: usize,
    state: State,
    image: &mut [u8],
    at: usize,
) -> State
    requires { ((table.now ≡ lent_table) × (length row.now ≡ row_size)) × ((number < 7) × (at + frame_size < 18446744073709551616)) }
    ensures { FrameWritten (fs number) state.hash row.now dc image.old at image.new result.hash }
{
    if at % 4 == 0 {
        if at / 8 + 242 <= image.len() {
            let next = write_whole(table, row, dc, number, state.hash, image, at);
            return State { hash: next };
        }
    }
    let mut frame = blank();
    let next = write_whole(table, row, dc, number, state.hash, &mut frame, 0);
    copy_bits(&frame, image, at);
    State { hash: next }
}
