// Damaged images. A file of records of five bytes: the offset of a byte of the image, high byte first, and its new value. FFFFFFFFh for an
// offset ends a damaged image, and the next begins with the whole one.
use crate::reading;
use console::Complaints;
use std::rt::Files;
use test_clusters::files;
use test_support::compare;

// A damaged image is read where it ends; the whole one then takes its place.
fn end<'a>(whole: &'a [u8], image: &[u8], offset: u64) -> &'a [u8] {
    if offset != 0xFFFF_FFFF {
        return compare::part(whole, 0, 0);
    }
    reading::refuse_image(image);
    whole
}

// Reads each damaged image of the file.
fn refuse_each(whole: &[u8], file: &[u8], image: &mut [u8]) {
    for k in 0..10627usize {
        let record = compare::number_at(file, 5 * k, 5);
        let offset = record / 256;
        compare::put(image, offset as usize, (record % 256) as u8);
        compare::copy(end(whole, image, offset), image, 0);
    }
}

// The records of zone1.
pub fn records(rt: &(impl Files + Complaints), blank: [u8; 53135]) -> [u8; 53135] {
    let mut file = blank;
    files::load(rt, b"zone1", b".damage", &mut file);
    file
}

// The damaged images of a file, then the whole one with slices that are refused.
pub fn refuse(whole: [u8; 119788], file: [u8; 53135]) {
    io::write_all(1, b"damaged\n");
    let mut image = whole;
    refuse_each(&whole, &file, &mut image);
    io::write_all(1, b"reading refused\n");
    reading::refuse_slices(&whole);
}

// An image with first # ONE: slices that are refused, then its last bit.
pub fn refuse_one(image: &mut [u8]) {
    io::write_all(1, b"reading refused, first # ONE\n");
    reading::refuse_slices(image);
    compare::flip(image, 119787, 1);
    reading::refuse_image(image);
}
