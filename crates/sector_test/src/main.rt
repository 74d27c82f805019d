// Error-detection code and scrambling: document 01's trials, and clusters of which an independent program gave the values.
#![tactic(auto)]

ghost use Rattle.std.specs.Prelude.{◌≡◌, ◌≤◌, length};

use address::Psn;
use test_bytes::{draws, hash};
use test_support::{compare, lines};

fn no_user() -> [u8; 2048]
    ensures { length result ≡ 2048 }
{
    [0u8; 2048]
}

fn no_frame() -> [u8; 2052]
    ensures { length result ≡ 2052 }
{
    [7u8; 2052]
}

// The generator's state, the hashes of the user bytes and of the data frames so far, and how often the test of the code answered wrongly.
#[derive(Clone, Copy)]
struct Seen {
    state: u64,
    user: u64,
    frames: u64,
    wrong: u64,
}

fn flag(set: bool) -> u64
    ensures { result ≤ 1 }
{
    if set { 1 } else { 0 }
}

fn edc_line(text: &[u8], bytes: &[u8]) {
    lines::hex_line(text, edc::edc(bytes) as u64, 8);
}

// Bytes drawn, or left as they are; the state behind them.
fn draw(drawn: bool, state: u64, bytes: &mut [u8]) -> u64 {
    if drawn {
        return draws::draw(state, bytes);
    }
    state
}

// The scrambled data frame of a sector.
fn frame_of(user: &[u8], stream: &[u8]) -> [u8; 2052]
    ensures { length result ≡ 2052 }
{
    let mut frame = no_frame();
    sector::data_frame(user, stream, &mut frame);
    frame
}

// How often the test of the code answers wrongly: on a data frame, and with one byte changed.
fn wrong_answers(frame: &mut [u8], stream: &[u8], s: usize) -> u64
    ensures { result ≤ 2 }
{
    let refused = flag(!sector::edc_right(frame, stream));
    compare::flip(frame, s % 32 * 66 + 5, 1);
    let passed = flag(sector::edc_right(frame, stream));
    compare::flip(frame, s % 32 * 66 + 5, 1);
    refused + passed
}

// One sector more: written, read back, and read with one byte changed, scrambled and plain.
fn sector(seen: Seen, drawn: bool, s: usize, stream: [u8; 2052]) -> Seen {
    let mut user = no_user();
    let state = draw(drawn, seen.state, &mut user);
    if s % 31 == 0 {
        edc_line(b"error-detection code ", &user);
    }
    let mut frame = frame_of(&user, &stream);
    let scrambled = wrong_answers(&mut frame, &stream, s);
    compare::combine(&mut frame, &stream);
    let plain = wrong_answers(&mut frame, b"", s);
    Seen {
        state,
        user: hash::behind(seen.user, &user),
        frames: hash::behind(seen.frames, &frame),
        wrong: std::num::wrapping_add_u64(seen.wrong, scrambled + plain),
    }
}

// 32 sectors; the code of the first and of the last is printed.
fn sectors(drawn: bool, seed: u64, stream: [u8; 2052]) -> Seen {
    let mut seen = Seen {
        state: draws::next(seed),
        user: hash::NONE,
        frames: hash::NONE,
        wrong: 0,
    };
    for s in 0..32usize {
        seen = sector(seen, drawn, s, stream);
    }
    seen
}

fn seen_lines(seen: Seen) {
    lines::hex_line(b"user bytes ", seen.user, 16);
    lines::hex_line(b"data frames ", seen.frames, 16);
    lines::hex_line(b"wrong answers ", seen.wrong, 1);
}

fn stream_lines(stream: [u8; 2052]) {
    lines::bytes_line(b"first scrambling bytes ", compare::part(&stream, 0, 16));
    lines::hex_line(b"scrambling bytes ", hash::of(&stream), 16);
}

// A cluster of bytes drawn, or of zeros.
fn cluster(psn: u32, drawn: bool, seed: u64) {
    let stream = scrambling::scrambling(Psn(psn));
    lines::hex_line(b"PSN ", psn as u64, 8);
    stream_lines(stream);
    seen_lines(sectors(drawn, seed, stream));
}

// A sector of zeros but for its last byte.
fn last_byte(x: u8) {
    let mut user = no_user();
    user[2047] = x;
    lines::hex_line(b"last byte ", x as u64, 2);
    edc_line(b"error-detection code ", &user);
}

// The data frame of these bytes: whether there is one, and its hash.
fn frame_lines(text: &[u8], user: &[u8], stream: &[u8], hashed: &[u8]) {
    let mut frame = no_frame();
    let done = sector::data_frame(user, stream, &mut frame);
    lines::hex_line(text, flag(done), 1);
    lines::hex_line(hashed, hash::of(&frame), 16);
}

// The scrambled data frame of a sector of zeros is the stream.
fn zeros_scrambled(stream: [u8; 2052]) {
    let user = no_user();
    frame_lines(b"data frame of zeros ", &user, &stream, b"scrambled ");
}

// The scrambled data frame of bytes drawn, with the first 1,001 bytes of the stream.
fn short_stream(stream: [u8; 2052]) {
    let mut user = no_user();
    draws::draw(1, &mut user);
    let part = compare::part(&stream, 0, 1001);
    frame_lines(
        b"data frame with 1,001 scrambling bytes ",
        &user,
        part,
        b"scrambled ",
    );
}

// The bytes 1, 2, .. of other lengths, and what is refused.
fn other_lengths(bytes: &[u8]) {
    edc_line(b"no byte ", b"");
    edc_line(b"one byte ", &[1u8]);
    edc_line(b"13 bytes ", bytes);
    frame_lines(b"data frame of 13 bytes ", bytes, bytes, b"frame ");
    let right = flag(sector::edc_right(bytes, bytes));
    lines::hex_line(b"code of 13 bytes right ", right, 1);
}

fn main() {
    last_byte(0);
    last_byte(1);
    last_byte(2);
    zeros_scrambled(scrambling::scrambling(Psn(0x0010_0000)));
    short_stream(scrambling::scrambling(Psn(0x0010_0000)));
    other_lengths(&[1u8, 2, 3, 4, 5, 6, 7, 8, 9, 10, 11, 12, 13]);
    cluster(0x0010_0000, false, 0);
    cluster(0x04C5_DBC0, true, 0);
    cluster(0x0507_1980, true, 1);
}
