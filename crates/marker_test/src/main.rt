// Each verdict, on images that the writer makes of drawn user bytes and side data.
#![tactic(auto)]

use address::Psn;
use test_bytes::{draws, lent};
use test_support::{compare, lines};
use verdict::Verdict;

// What an image is marked by, and the image.
#[derive(Clone, Copy)]
struct Given {
    psn: u32,
    user: [u8; 65536],
    side: [u8; 592],
    image: [u8; 119788],
}

fn print_verdict(verdict: Verdict) {
    match verdict {
        Verdict::Pass => {
            io::write_all(1, b"pass\n");
        }
        Verdict::Refused(answer) => lines::answer_line(b"refused ", answer),
        Verdict::OtherPsn(psn) => lines::hex_line(b"PSN ", psn.0 as u64, 8),
        Verdict::OtherUser(n) => lines::number_line(b"user byte ", n as u64),
        Verdict::OtherSide(n) => lines::number_line(b"side byte ", n as u64),
    }
}

// With slices of these, and a work slice of this length lent.
fn mark(psn: u32, user: &[u8], side: &[u8], image: &[u8], works: usize) {
    let mut bytes = lent::user();
    let mut control = lent::side();
    let mut dc = lent::words();
    let mut work = lent::work();
    print_verdict(marker::mark(
        Psn(psn),
        user,
        side,
        image,
        &mut bytes,
        &mut control,
        &mut dc,
        compare::first(&mut work, works),
    ));
}

fn verdict(text: &[u8], given: Given) {
    let user = given.user;
    let side = given.side;
    let image = given.image;
    io::write_all(1, text);
    mark(given.psn, &user, &side, &image, 76880);
}

// Slices of other lengths.
fn lengths(psn: u32, user: &[u8], side: &[u8], image: &[u8]) {
    io::write_all(1, b"side for user: ");
    mark(psn, side, side, image, 76880);
    io::write_all(1, b"user for side: ");
    mark(psn, user, user, image, 76880);
    io::write_all(1, b"side for image: ");
    mark(psn, user, side, side, 76880);
    io::write_all(1, b"short work: ");
    mark(psn, user, side, image, 10);
}

fn other_lengths(given: Given) {
    let user = given.user;
    let side = given.side;
    let image = given.image;
    lengths(given.psn, &user, &side, &image);
}

fn with_psn(given: Given, psn: u32) -> Given {
    let mut out = given;
    out.psn = psn;
    out
}

// With a bit of user byte k changed.
fn with_user(given: Given, k: usize) -> Given {
    let mut user = given.user;
    compare::flip(&mut user, k, 1);
    let mut out = given;
    out.user = user;
    out
}

fn with_side(given: Given, k: usize) -> Given {
    let mut side = given.side;
    compare::flip(&mut side, k, 1);
    let mut out = given;
    out.side = side;
    out
}

fn with_last_bit(given: Given) -> Given {
    let mut image = given.image;
    compare::flip(&mut image, 119787, 1);
    let mut out = given;
    out.image = image;
    out
}

fn words_of(word: u32) -> [u32; 496] {
    [word; 496]
}

// With the image under these dc words and this first #.
fn with_image(given: Given, dc: [u32; 496], first: bool) -> Given {
    let user = given.user;
    let side = given.side;
    let mut image = given.image;
    let mut work = lent::work();
    writer::write_image(
        &user,
        Psn(given.psn),
        &side,
        &dc,
        first,
        &mut image,
        &mut work,
    );
    let mut out = given;
    out.image = image;
    out
}

fn other_psns(given: Given) {
    verdict(b"another PSN: ", with_psn(given, 0x0410_0000));
    verdict(b"no PSN: ", with_psn(given, 7));
}

fn other_parts(given: Given) -> Given {
    let one = with_side(given, 591);
    verdict(b"last side byte: ", one);
    let two = with_side(one, 16);
    verdict(b"two side bytes: ", two);
    let three = with_user(two, 65535);
    verdict(b"and the last user byte: ", three);
    let four = with_user(three, 2048);
    verdict(b"and another: ", four);
    four
}

fn images(given: Given) -> Given {
    verdict(b"zeros: ", given);
    let ones = with_image(given, words_of(0x0FFF_FFFF), false);
    verdict(b"dc words all ones: ", ones);
    let hash = with_image(given, words_of(0x0FFF_FFFF), true);
    verdict(b"and first # ONE: ", hash);
    let zeros = with_image(given, words_of(0), false);
    verdict(b"dc words zero: ", zeros);
    zeros
}

fn drawn() -> Given {
    let mut user = lent::user();
    let mut side = lent::side();
    draws::draw(1, &mut user);
    draws::draw(2, &mut side);
    Given {
        psn: 0x02F7_6400,
        user,
        side,
        image: [0u8; 119788],
    }
}

fn main() {
    let given = images(drawn());
    other_lengths(given);
    other_psns(given);
    verdict(b"last bit: ", with_last_bit(other_parts(given)));
}
