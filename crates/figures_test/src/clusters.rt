// ECC clusters to look into: some with a single mark, some of drawn user bytes and side data.
ghost use Rattle.std.specs.Prelude.{◌≡◌, length};

use address::Psn;
use test_bytes::{draws, hash};
use test_support::compare;

pub fn no_work() -> [u8; 76880]
    ensures { 76880 ≡ length result }
{
    [0u8; 76880]
}

// The BIS block of a cluster.
pub fn block_in(work: [u8; 76880]) -> bis::Block
    requires { 76880 ≡ length work }
{
    bis_cluster::steps::bis_block(&work)
}

// Where a byte of the LDC cluster stands; the end for a place outside.
pub fn ldc_index(row: usize, column: usize) -> usize {
    if row < 496 {
        if column < 152 {
            return 155 * row + column + column / 38;
        }
    }
    76880
}

// ---- drawn clusters

pub const PSN: u32 = 0x04c5_dbc0;

pub fn user(seed: u64) -> [u8; 65536]
    ensures { 65536 ≡ length result }
{
    let mut bytes = io::large_buffer();
    draws::draw(seed, &mut bytes);
    bytes
}

pub fn side(seed: u64) -> [u8; 592]
    ensures { 592 ≡ length result }
{
    let mut bytes = [0u8; 592];
    draws::draw(hash::more(seed, 1), &mut bytes);
    bytes
}

pub fn drawn(seed: u64) -> [u8; 76880]
    ensures { 76880 ≡ length result }
{
    let user = user(seed);
    let side = side(seed);
    let mut work = no_work();
    cluster_writer::steps::encode(&user, Psn(PSN), &side, &mut work);
    work
}

// ---- the bytes that a drawn cluster is made of: the scrambled data frames, one behind the other, then the side data

// Bytes from `at` on, each hashed behind those of the clusters before.
pub fn add(marks: &mut [u64], at: usize, bytes: &[u8]) {
    for (mark, &byte) in marks.iter_mut().skip(at).zip(bytes) {
        *mark = hash::more(*mark, byte);
    }
}

fn add_frame(marks: &mut [u64], f: usize, sector: &[u8]) {
    let stream = scrambling::scrambling(Psn(PSN));
    let mut frame = [0u8; 2052];
    sector::data_frame(sector, &stream, &mut frame);
    add(marks, 2052 * (f % 32), &frame);
}

fn add_frames(marks: &mut [u64], user: &[u8]) {
    for (f, sector) in user.chunks_exact(2048).enumerate() {
        add_frame(marks, f, sector);
    }
}

fn add_inputs(marks: &mut [u64], seed: u64) {
    let user = user(seed);
    let side = side(seed);
    add_frames(marks, &user);
    add(marks, 65664, &side);
}

// The only place of a mark.
pub fn only(marks: &[u64], mark: u64) -> Option<usize> {
    let first = marks.iter().position(|&m| m == mark)?;
    if marks[first + 1..].contains(&mark) {
        return None;
    }
    Some(first)
}

// Byte n of code word c of the LDC block, or of the BIS block; 0 where its place is outside the cluster.
fn byte_in(work: [u8; 76880], bis: bool, n: usize, c: usize) -> u8
    requires { 76880 ≡ length work }
{
    if bis {
        let block = block_in(work);
        return block[c % 24][n % 62];
    }
    let place = ldc::steps::locate(c % 304, n % 248);
    compare::byte_at(&work, ldc_index(place.row, place.column))
}

// The place of the byte that a cell has in four clusters, each drawn by the hash of those before.
pub fn found(bis: bool, n: usize, c: usize) -> Option<usize> {
    let mut marks = [0u64; 66256];
    let mut mark = 0;
    for _ in 0..4 {
        add_inputs(&mut marks, mark);
        mark = hash::more(mark, byte_in(drawn(mark), bis, n, c));
    }
    only(&marks, mark)
}
