// Images read, or refused with every slice as document 01 has it.
use reader::Read;
use test_bytes::lent;
use test_clusters::{Cluster, cut, marks};
use test_support::{compare, lines};

// The answer, and whether the PSN or the first # is another.
fn say(text: &[u8], psn: u32, first: bool, read: Read) {
    let answer = read.answer;
    let found = read.psn;
    lines::answer_line(text, answer);
    if found.0 != psn {
        io::write_all(1, b"  another PSN\n");
    }
    if read.first != first {
        io::write_all(1, b"  another first #\n");
    }
}

// The PSN and the first # of an image that is accepted.
fn say_read(read: Read) {
    let answer = read.answer;
    let psn = read.psn;
    lines::answer_line(b"", answer);
    lines::hex_line(b"  PSN ", psn.0 as u64, 8);
    lines::number_line(b"  first # ", read.first as u64);
}

// Reads an image into marked slices, and says the answer.
pub fn read(psn: u32, first: bool, image: [u8; 119788], blank: Cluster) -> Cluster {
    let mut user = blank.user;
    let mut side = blank.side;
    let mut dc = blank.dc;
    let mut work = blank.work;
    let read = reader::read_image(&image, &mut user, &mut side, &mut dc, &mut work);
    say(b"  read ", psn, first, read);
    Cluster {
        user,
        side,
        dc,
        image,
        work,
    }
}

// How many places of the slices are not as a refusal leaves them; every byte of work is then `left`.
fn touched(user: &[u8], side: &[u8], dc: &[u32], work: &[u8], left: u8) -> u64 {
    let n = marks::others(user, lent::USER_MARK);
    let n = std::num::wrapping_add_u64(n, marks::others(side, lent::SIDE_MARK));
    let n = std::num::wrapping_add_u64(n, marks::other_words(dc, lent::WORD_MARK));
    std::num::wrapping_add_u64(n, marks::others(work, left))
}

// A refusal, with slices of these lengths for user, side, dc and work: number and place, no PSN, no first #, and whether the slices are not left
// as they should be. Of an image that is accepted, the PSN and the first #; the rest of it is compared by `read`.
fn refuse(image: &[u8], user: usize, side: usize, dc: usize, work: usize, left: u8) {
    let mut users = lent::user();
    let mut sides = lent::side();
    let mut words = lent::words();
    let mut works = lent::work();
    let read = reader::read_image(
        image,
        compare::first(&mut users, user),
        compare::first(&mut sides, side),
        cut::first_words(&mut words, dc),
        compare::first(&mut works, work),
    );
    let answer = read.answer;
    if answer.is_done() {
        say_read(read);
        return;
    }
    say(b"", 0, false, read);
    if touched(&users, &sides, &words, &works, left) != 0 {
        io::write_all(1, b"  not as it should be left\n");
    }
}

// Tests 9 to 16, after which work holds zeros.
pub fn refuse_image(image: &[u8]) {
    refuse(image, 65536, 592, 496, 76880, 0);
}

// Tests 1 to 5; where two tests fail, the lower number.
pub fn refuse_slices(image: &[u8]) {
    refuse(image, 2, 2, 496, 76880, lent::WORK_MARK);
    refuse(image, 65536, 2, 2, 76880, lent::WORK_MARK);
    refuse(image, 65536, 592, 2, 76880, lent::WORK_MARK);
    refuse(b"short", 65536, 592, 496, 2, lent::WORK_MARK);
    refuse(image, 65536, 592, 496, 2, lent::WORK_MARK);
}
