// Steps of the image reader, to the end of an image and past it. A step is printed as the number that it gives and the next position.
#![tactic(auto)]

ghost use Rattle.std.specs.Prelude.{◌≡◌};
ghost use Rattle.bit_reader_test.specs.Steps.{at_start, three_steps};

use bit_reader::ImageReader;
use bits::Step;
use test_support::lines;

// The numbers that three steps of one reader give, and where it then stands.
#[derive(Clone, Copy)]
struct Three {
    first: u8,
    second: u8,
    third: u8,
    position: usize,
}

fn three_steps(image: &[u8]) -> Three
    ensures { result ≡ three_steps (at_start image.entry) }
{
    let mut reader = ImageReader::new(image);
    let first = reader.step();
    let second = reader.step();
    let third = reader.step();
    Three {
        first,
        second,
        third,
        position: reader.position,
    }
}

fn print_step(step: Step) {
    lines::number(b" ", step.value as u64);
    lines::number(b":", step.next as u64);
}

// So many steps, the first from `start`.
fn steps(text: &[u8], image: &[u8], start: usize, count: usize) {
    io::write_all(1, text);
    let mut position = start;
    for k in 0..count {
        let step = bit_reader::step_from(image, position);
        print_step(step);
        position = step.next;
    }
    lines::end_line();
}

// Three steps of one reader: their numbers, and its last position.
fn print_three(text: &[u8], image: &[u8]) {
    let steps = three_steps(image);
    lines::number(text, steps.first as u64);
    lines::number(b" ", steps.second as u64);
    lines::number(b" ", steps.third as u64);
    lines::number_line(b" ", steps.position as u64);
}

fn long_image() {
    let image = [0x05u8, 0x39, 0x77];
    steps(b"24 bits:", &image, 0, 10);
    steps(b"24 bits from 22:", &image, 22, 2);
    steps(b"24 bits from 21:", &image, 21, 3);
    steps(b"24 bits from 100:", &image, 100, 2);
    steps(b"24 bits from 2^64 - 1:", &image, 18446744073709551615, 2);
}

fn short_images() {
    let two = [0xffu8, 0x55];
    steps(b"16 bits:", &two, 0, 7);
    steps(b"16 bits from 1:", &two, 1, 7);
    steps(b"16 bits from 2:", &two, 2, 7);
    steps(b"8 bits:", &[0xacu8], 0, 4);
    steps(b"no bits:", b"", 0, 2);
}

fn main() {
    long_image();
    short_images();
    print_three(b"one reader, 24 bits: ", &[0x05u8, 0x39, 0x77]);
    print_three(b"one reader, 8 bits: ", &[0xacu8]);
    print_three(b"one reader, no bits: ", b"");
}
