// Frames of a known cluster written into slices of 245 bytes, from bit 8 on and then a bit later each, read back and damaged. Standard input
// holds seven records of 161 bytes: #, sync number, dc word, row.
#![tactic(auto)]

ghost use Rattle.std.specs.Prelude.{◌≡◌, ◌<◌};
ghost use Rattle.automaton.specs.steps.Table.{table};

use automaton::Table;
use frame::State;
use test_support::{compare, lines};

fn flag(set: bool) -> u64 {
    if set { 1 } else { 0 }
}

fn sync_numbers() {
    io::write_all(1, b"sync numbers");
    for n in 0..62usize {
        lines::number(b" ", frame_sync::sync_number(n) as u64);
    }
    lines::end_line();
}

// Where a frame stands in an image, its sync number, and # of the next sync.
#[derive(Clone, Copy)]
struct Place {
    at: usize,
    sync: usize,
    next: bool,
}

// How often nothing was read, and of what was read the sum of the dc words and the count of bytes that differ.
#[derive(Clone, Copy)]
struct Seen {
    none: u64,
    dcs: u64,
    bytes: u64,
}

fn sum(a: Seen, b: Seen) -> Seen {
    Seen {
        none: std::num::wrapping_add_u64(a.none, b.none),
        dcs: std::num::wrapping_add_u64(a.dcs, b.dcs),
        bytes: std::num::wrapping_add_u64(a.bytes, b.bytes),
    }
}

fn read(steps: &Table, image: [u8; 245], row: [u8; 155], place: Place) -> Seen
    requires { (steps.now ≡ table) × ((place.at < 16) × (place.sync < 7)) }
{
    let mut found = [0u8; 155];
    match frame_reader::steps::read_frame(
        steps, &image, place.at, place.sync, place.next, &mut found,
    ) {
        Some(dc) => Seen {
            none: 0,
            dcs: dc as u64,
            bytes: compare::differing(&found, &row),
        },
        None => Seen {
            none: 1,
            dcs: 0,
            bytes: 0,
        },
    }
}

// The dc word, and in how many bytes the row differs.
fn seen_line(text: &[u8], seen: Seen) {
    io::write_all(1, text);
    if seen.none == 1 {
        io::write_all(1, b"none\n");
        return;
    }
    io::print_hex(1, seen.dcs, 8);
    lines::number_line(b" ", seen.bytes);
}

fn flipped(image: [u8; 245], bit: usize) -> [u8; 245] {
    let mut out = image;
    let old = bits::read_bit(&out, bit);
    bit_writer::write_bit(&mut out, bit, old ^ 1);
    out
}

fn sync_right(image: [u8; 245], at: usize, sync: usize) -> bool
    requires { (at < 16) × (sync < 7) }
{
    frame_sync::steps::sync_right(&image, at, sync)
}

// Each bit of the sync flipped: whether it still is that sync.
fn sync_line(image: [u8; 245], at: usize, sync: usize)
    requires { (at < 16) × (sync < 7) }
{
    io::write_all(1, b"sync with a bit flipped ");
    for k in 0..30usize {
        io::print_decimal(1, flag(sync_right(flipped(image, at + k), at, sync)));
    }
    lines::end_line();
}

// Every seventh modulation bit flipped and the frame read.
fn flips(steps: &Table, image: [u8; 245], row: [u8; 155], place: Place) -> Seen
    requires { (steps.now ≡ table) × ((place.at < 16) × (place.sync < 7)) }
{
    let mut seen = Seen {
        none: 0,
        dcs: 0,
        bytes: 0,
    };
    for k in 0..271usize {
        let other = flipped(image, place.at + 30 + 7 * k);
        seen = sum(seen, read(steps, other, row, place));
    }
    seen
}

fn flips_line(seen: Seen) {
    lines::number(b"flips 271 none ", seen.none);
    lines::number(b" sum ", seen.dcs);
    lines::number_line(b" bytes ", seen.bytes);
}

// The sync with bits flipped, the frame as it was written, with the other #, and with bits flipped.
fn read_lines(steps: &Table, image: [u8; 245], row: [u8; 155], place: Place)
    requires { (steps.now ≡ table) × ((place.at < 16) × (place.sync < 7)) }
{
    sync_line(image, place.at, place.sync);
    seen_line(b"read ", read(steps, image, row, place));
    let other = Place {
        at: place.at,
        sync: place.sync,
        next: !place.next,
    };
    seen_line(b"read with the other # ", read(steps, image, row, other));
    flips_line(flips(steps, image, row, place));
}

#[derive(Clone, Copy)]
struct Written {
    image: [u8; 245],
    next: bool,
}

fn write(row: [u8; 155], dc: u32, hash: bool, sync: usize, at: usize) -> Written
    requires { (at < 16) × (sync < 7) }
{
    let mut table = modulator_table::steps::no_table();
    modulator_table::steps::fill_table(&mut table);
    let mut image = [0xa5u8; 245];
    let state = frame_writer::steps::write_frame(
        &table,
        &row,
        dc,
        sync,
        State { hash },
        &mut image,
        at,
    );
    Written {
        image,
        next: state.hash,
    }
}

fn image_lines(image: [u8; 245], at: usize, next: bool) {
    lines::bytes_line(b"image ", &image);
    lines::number(b"# ", flag(frame_sync::hash_at(&image, at)));
    lines::number_line(b" next # ", flag(next));
}

fn row_of(record: [u8; 161]) -> [u8; 155] {
    let mut row = [0u8; 155];
    compare::copy(compare::part(&record, 6, 161), &mut row, 0);
    row
}

fn dc_of(record: [u8; 161]) -> u32 {
    (compare::number_at(&record, 2, 4) % 0x1_0000_0000) as u32
}

// The frame of a record from bit `at` on.
fn frame_lines(steps: &Table, record: [u8; 161], at: usize)
    requires { (steps.now ≡ table) × (at < 16) }
{
    let row = row_of(record);
    let sync = (record[1] % 7) as usize;
    let written = write(row, dc_of(record), record[0] == 1, sync, at);
    let image = written.image;
    let next = written.next;
    image_lines(image, at, next);
    read_lines(steps, image, row, Place { at, sync, next });
}

fn read_record() -> [u8; 161] {
    let mut record = [0u8; 161];
    let n = io::read_full(0, &mut record);
    lines::number_line(b"record of bytes ", n as u64);
    record
}

fn records(steps: &Table)
    requires { steps.now ≡ table }
{
    for k in 0..7usize {
        frame_lines(steps, read_record(), 8 + k);
    }
}

fn main() {
    sync_numbers();
    let mut steps = [0; 10368];
    demodulator_table::steps::fill_table(&mut steps);
    records(&steps);
}
