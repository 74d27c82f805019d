// What is printed.
use answer::Answer;

pub fn end_line() {
    io::write_all(1, b"\n");
}

// A text and a number.
pub fn number(text: &[u8], value: u64) {
    io::write_all(1, text);
    io::print_decimal(1, value);
}

pub fn number_line(text: &[u8], value: u64) {
    number(text, value);
    end_line();
}

pub fn hex_line(text: &[u8], value: u64, digits: usize) {
    io::write_all(1, text);
    io::print_hex(1, value, digits);
    end_line();
}

pub fn hex_bytes(bytes: &[u8]) {
    for k in 0..bytes.len() {
        io::print_hex(1, wide(bytes[k]), 2);
    }
}

pub fn bytes_line(text: &[u8], bytes: &[u8]) {
    io::write_all(1, text);
    hex_bytes(bytes);
    end_line();
}

fn wide(byte: u8) -> u64 {
    byte as u64
}

// An answer's number and place.
pub fn answer_line(text: &[u8], answer: Answer) {
    number(text, answer.number() as u64);
    number_line(b" ", answer.place() as u64);
}
