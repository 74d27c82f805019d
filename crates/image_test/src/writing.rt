// Images written, or refused with both slices untouched.
ghost use Rattle.std.specs.Prelude.{◌≡◌, length};

use address::Psn;
use test_bytes::lent;
use test_clusters::{Cluster, cut, marks};
use test_support::{compare, lines};

// Writes the image of a cluster into marked slices, and says the answer.
pub fn write(text: &[u8], psn: u32, first: bool, from: Cluster, blank: Cluster) -> Cluster {
    let user = from.user;
    let side = from.side;
    let dc = from.dc;
    let mut image = blank.image;
    let mut work = blank.work;
    let answer = writer::write_image(&user, Psn(psn), &side, &dc, first, &mut image, &mut work);
    lines::answer_line(text, answer);
    Cluster {
        user,
        side,
        dc,
        image,
        work,
    }
}

fn words_with(large: usize) -> [u32; 496]
    ensures { length result ≡ 496 }
{
    let mut words = lent::words();
    if large < 496 {
        words[large] = 0x1000_0000;
        words[495] = 0xFFFF_FFFF;
    }
    words
}

fn say_touched(image: &[u8], work: &[u8]) {
    marks::if_others(b"  image touched\n", image, lent::IMAGE_MARK);
    marks::if_others(b"  work touched\n", work, lent::WORK_MARK);
}

// A refusal, with slices of these lengths for user, side, dc, image and work: the answer, and whether image and work were touched. Where `large`
// is the index of a dc word, that and the last are too large.
fn refuse(psn: u32, large: usize, user: usize, side: usize, dc: usize, image: usize, work: usize) {
    let users = lent::user();
    let sides = lent::user();
    let words = words_with(large);
    let mut images = lent::image();
    let mut works = lent::work();
    let answer = writer::write_image(
        compare::part(&users, 0, user),
        Psn(psn),
        compare::part(&sides, 0, side),
        cut::part_words(&words, dc),
        true,
        compare::first(&mut images, image),
        compare::first(&mut works, work),
    );
    lines::answer_line(b"", answer);
    say_touched(&images, &works);
}

// Tests 1 to 5; where two tests fail, the lower number.
pub fn refuse_slices() {
    refuse(0x0010_0000, 496, 592, 65536, 496, 119788, 76880);
    refuse(0x0010_0000, 496, 65536, 65536, 3, 119788, 76880);
    refuse(0x0010_0000, 496, 65536, 592, 3, 119788, 76880);
    refuse(0x0010_0010, 496, 65536, 592, 496, 10, 10);
    refuse(0x0010_0010, 496, 65536, 592, 496, 119788, 10);
}

// Tests 6 to 8: a PSN, and the first dc word that is too large.
pub fn refuse_parts(psn: u32, large: usize) {
    refuse(psn, large, 65536, 592, 496, 119788, 76880);
}
