// Whole clusters for the tests: what an image is made of, the image, and the ECC cluster; loaded, drawn and compared.
#![tactic(auto)]

pub mod cut;
pub mod files;
pub mod marks;

use console::Complaints;
use std::rt::Files;
use test_bytes::{draws, lent};
use test_support::{compare, lines};

#[derive(Clone, Copy)]
pub struct Cluster {
    pub user: [u8; 65536],
    pub side: [u8; 592],
    pub dc: [u32; 496],
    pub image: [u8; 119788],
    pub work: [u8; 76880],
}

// Each part marked.
pub fn marked() -> Cluster {
    Cluster {
        user: lent::user(),
        side: lent::side(),
        dc: lent::words(),
        image: lent::image(),
        work: lent::work(),
    }
}

fn loaded_words(rt: &(impl Files + Complaints), name: &[u8], blank: [u32; 496]) -> [u32; 496] {
    let mut dc = blank;
    let mut bytes = [0u8; 1984];
    files::load(rt, name, b".dc", &mut bytes);
    notation::words_of(&bytes, &mut dc);
    dc
}

// A cluster of files.
pub fn load(rt: &(impl Files + Complaints), name: &[u8], blank: Cluster) -> Cluster {
    let mut user = blank.user;
    let mut side = blank.side;
    let mut image = blank.image;
    let mut work = blank.work;
    files::load(rt, name, b".user", &mut user);
    files::load(rt, name, b".side", &mut side);
    files::load(rt, name, b".image", &mut image);
    files::load(rt, name, b".work", &mut work);
    let words = blank.dc;
    Cluster {
        user,
        side,
        dc: loaded_words(rt, name, words),
        image,
        work,
    }
}

// dc word k: 0, 0FFFFFFFh or drawn.
fn word(k: usize, state: u64) -> u32 {
    if k % 4 == 3 {
        return 0;
    }
    if k % 5 == 4 {
        return 0x0FFF_FFFF;
    }
    (state >> 36) as u32
}

fn drawn_words(from: u64) -> [u32; 496] {
    let mut words = [0u32; 496];
    let mut state = from;
    for k in 0..496usize {
        state = draws::next(state);
        words[k] = word(k, state);
    }
    words
}

// User bytes, side data and dc words of a seed.
pub fn draw(seed: u64, blank: Cluster) -> Cluster {
    let mut user = blank.user;
    let mut side = blank.side;
    let image = blank.image;
    let work = blank.work;
    let state = draws::draw(seed, &mut user);
    let state = draws::draw(state, &mut side);
    Cluster {
        user,
        side,
        dc: drawn_words(state),
        image,
        work,
    }
}

// In how many places of a there is another byte in b, or none.
fn differing_line(text: &[u8], a: &[u8], b: &[u8]) {
    lines::number_line(text, compare::differing(a, b));
}

// 1 where place k of a has another word in b, or none.
fn word_differs(a: &[u32], b: &[u32], k: usize) -> u64 {
    if k < a.len() {
        if k < b.len() {
            if a[k] == b[k] {
                return 0;
            }
        }
    }
    1
}

// In how many places of a there is another word in b, or none.
fn words_differing(a: &[u32], b: &[u32]) -> u64 {
    let mut n: u64 = 0;
    for k in 0..a.len() {
        n = std::num::wrapping_add_u64(n, word_differs(a, b, k));
    }
    n
}

pub fn compare_images(a: [u8; 119788], b: [u8; 119788]) {
    differing_line(b"  image bytes that differ ", &a, &b);
}

pub fn compare_works(a: [u8; 76880], b: [u8; 76880]) {
    differing_line(b"  cluster bytes that differ ", &a, &b);
}

fn compare_users(a: [u8; 65536], b: [u8; 65536]) {
    differing_line(b"  user bytes that differ ", &a, &b);
}

fn compare_sides(a: [u8; 592], b: [u8; 592]) {
    differing_line(b"  side bytes that differ ", &a, &b);
}

fn compare_words(a: [u32; 496], b: [u32; 496]) {
    let n = words_differing(&a, &b);
    lines::number_line(b"  dc words that differ ", n);
}

// User bytes, side data and dc words.
pub fn compare_inputs(a: Cluster, b: Cluster) {
    let x = a.user;
    let y = b.user;
    compare_users(x, y);
    let x = a.side;
    let y = b.side;
    compare_sides(x, y);
    let x = a.dc;
    let y = b.dc;
    compare_words(x, y);
}
