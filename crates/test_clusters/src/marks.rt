// Whether slices that are lent keep their marks.

// How many bytes are other than `byte`.
pub fn others(bytes: &[u8], byte: u8) -> u64 {
    let mut n: u64 = 0;
    for k in 0..bytes.len() {
        if bytes[k] != byte {
            n = std::num::wrapping_add_u64(n, 1);
        }
    }
    n
}

// The same of words.
pub fn other_words(words: &[u32], word: u32) -> u64 {
    let mut n: u64 = 0;
    for k in 0..words.len() {
        if words[k] != word {
            n = std::num::wrapping_add_u64(n, 1);
        }
    }
    n
}

// A text, where a byte is other than `byte`.
pub fn if_others(text: &[u8], bytes: &[u8], byte: u8) {
    if others(bytes, byte) != 0 {
        io::write_all(1, text);
    }
}
