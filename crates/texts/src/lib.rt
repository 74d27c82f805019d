// Texts of at most 256 bytes, put together of bytes and numbers.
#![tactic(auto)]

ghost use Rattle.std.specs.Prelude.{◌≡◌, cond, ◌-◌, ◌<◌, eqb};
ghost use Rattle.texts.specs.Text.{blank_text, byte_added, added};
ghost use Rattle.texts.specs.Numbers.{decimal, hexadecimal};
ghost use Rattle.texts.specs.Pieces.{shown, piece, PieceBehind};

// The first `size` bytes; the others are 0.
#[derive(Clone, Copy)]
pub struct Text {
    pub bytes: [u8; 256],
    pub size: usize,
}

pub fn blank() -> Text
    ensures { result ≡ blank_text }
{
    Text {
        bytes: [0u8; 256],
        size: 0,
    }
}

// A byte more, where there is room.
fn push(text: Text, byte: u8) -> Text
    ensures { result ≡ byte_added text byte }
{
    let size = text.size;
    if 256 <= size {
        return text;
    }
    let mut bytes = text.bytes;
    bytes[size] = byte;
    Text {
        bytes,
        size: size + 1,
    }
}

pub fn put(text: Text, more: &[u8]) -> Text
    ensures { result ≡ added text more.now }
{
    let mut done = text;
    for &byte in more {
        done = push(done, byte);
    }
    done
}

pub fn put_decimal(text: Text, n: u64) -> Text
    ensures { result ≡ added text (decimal n) }
{
    let mut digits = [0u8; 20];
    let k = io::decimal(n, &mut digits);
    put(text, &digits[..k])
}

// Eight digits.
pub fn put_hexadecimal(text: Text, n: u32) -> Text
    ensures { result ≡ added text (hexadecimal n) }
{
    let mut digits = [0u8; 16];
    let k = io::hex(n as u64, 8, &mut digits);
    put(text, &digits[..k])
}

// ---- pieces of a text: a bar, `|`, stands between each and the next; a star, `*`, is a number

// The bars in front of a piece that are left behind a byte.
fn bars_left(bars: usize, byte: u8) -> usize
    requires { 0 < bars }
    ensures { result ≡ cond (eqb byte 124) (bars - 1) bars }
{
    if byte == b'|' { bars - 1 } else { bars }
}

// Where piece k begins.
fn piece_at(pieces: &[u8], k: usize) -> usize
    ensures { PieceBehind pieces.now k result 0 }
{
    let mut bars = k;
    for (i, &byte) in pieces.iter().enumerate() {
        if bars == 0 {
            return i;
        }
        bars = bars_left(bars, byte);
    }
    pieces.len()
}

fn put_shown(text: Text, byte: u8, n: usize) -> Text
    ensures { result ≡ added text (shown n byte) }
{
    if byte == b'*' {
        put_decimal(text, n as u64)
    } else {
        push(text, byte)
    }
}

// Piece k, with the number n.
pub fn put_piece(text: Text, pieces: &[u8], k: usize, n: usize) -> Text
    ensures { result ≡ added text (piece k n pieces.now) }
{
    let mut done = text;
    for &byte in &pieces[piece_at(pieces, k)..] {
        if byte == b'|' {
            break;
        }
        done = put_shown(done, byte, n);
    }
    done
}
