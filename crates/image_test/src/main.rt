// Writer and reader on whole images: the clusters of an independent program both ways, its damaged images, round trips, and each refusal.
#![tactic(auto)]

mod damage;
mod reading;
mod writing;

use console::Complaints;
use std::rt::Files;
use test_clusters::cut;
use test_support::{compare, lines};

// A cluster of files, written.
fn write(psn: u32, first: bool, given: test_clusters::Cluster) {
    let made = writing::write(b"  written ", psn, first, given, test_clusters::marked());
    let x = made.image;
    let y = given.image;
    test_clusters::compare_images(x, y);
    let x = made.work;
    let y = given.work;
    test_clusters::compare_works(x, y);
}

// Its image read.
fn read(psn: u32, first: bool, given: test_clusters::Cluster) {
    let image = given.image;
    let read = reading::read(psn, first, image, test_clusters::marked());
    test_clusters::compare_inputs(read, given);
    let x = read.work;
    let y = given.work;
    test_clusters::compare_works(x, y);
}

// The image with first # ONE: the first bit is changed, and nothing else.
fn with_one(given: test_clusters::Cluster) -> test_clusters::Cluster {
    let mut image = given.image;
    compare::flip(&mut image, 0, 128);
    let mut out = given;
    out.image = image;
    out
}

fn ways(psn: u32, first: bool, given: test_clusters::Cluster) {
    write(psn, first, given);
    read(psn, first, given);
}

// With first # ZERO, as the files have it, and with ONE.
fn both_ways(rt: &(impl Files + Complaints), k: usize, psn: u32) {
    let name = cut::line(b"zero\nzone0\nzone1\nzone2\nones", k);
    io::write_all(1, name);
    lines::end_line();
    let given = test_clusters::load(rt, name, test_clusters::marked());
    ways(psn, false, given);
    io::write_all(1, b"first # ONE\n");
    ways(psn, true, with_one(given));
}

fn files(rt: &(impl Files + Complaints)) {
    both_ways(rt, 0, 0x0010_0000);
    both_ways(rt, 1, 0x0108_9BE0);
    both_ways(rt, 2, 0x02F7_6400);
    both_ways(rt, 3, 0x0508_9BE0);
    both_ways(rt, 4, 0x03EF_FFE0);
}

// The damaged images of zone1, in the order of data/zone1.damage.txt, and its image with slices that are refused. One is no damage: first_hash is the
// image with first # ONE.
fn images_refused(rt: &(impl Files + Complaints)) {
    let given = test_clusters::load(rt, b"zone1", test_clusters::marked());
    let image = given.image;
    let file = damage::records(rt, [0u8; 53135]);
    damage::refuse(image, file);
}

fn image_with_one_refused(rt: &(impl Files + Complaints)) {
    let given = with_one(test_clusters::load(rt, b"zone1", test_clusters::marked()));
    let mut image = given.image;
    damage::refuse_one(&mut image);
}

// A cluster drawn from a seed, written and read, and what was read written again.
fn trip(psn: u32, first: bool, seed: u64) {
    let blank = test_clusters::marked();
    let given = test_clusters::draw(seed, blank);
    let made = writing::write(b"  written ", psn, first, given, blank);
    let image = made.image;
    let read = reading::read(psn, first, image, blank);
    test_clusters::compare_inputs(read, given);
    let again = writing::write(b"  written again ", psn, first, read, blank);
    let other = again.image;
    test_clusters::compare_images(other, image);
}

fn round_trips() {
    io::write_all(1, b"round trips\n");
    trip(0x0108_9BE0, false, 1);
    trip(0x03EF_FFE0, true, 2);
    trip(0x0410_0000, false, 3);
}

fn inputs_refused() {
    io::write_all(1, b"writing refused\n");
    writing::refuse_slices();
    writing::refuse_parts(0x0010_0010, 496);
    writing::refuse_parts(0x0600_0001, 496);
    writing::refuse_parts(0x0600_0000, 496);
    writing::refuse_parts(0x0010_0000, 7);
    writing::refuse_parts(0x000F_FFE0, 7);
    writing::refuse_parts(0x0010_0000, 495);
}

fn main(rt: HostRuntime) {
    files(&rt);
    images_refused(&rt);
    image_with_one_refused(&rt);
    round_trips();
    inputs_refused();
}
