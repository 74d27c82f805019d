// Parts of dc words and of texts.
use test_support::compare::{part, too_few};

// The first words.
pub fn part_words(words: &[u32], count: usize) -> &[u32] {
    if count <= words.len() {
        return &words[0..count];
    }
    too_few();
    words
}

// The same to be written.
pub fn first_words(words: &mut [u32], count: usize) -> &mut [u32] {
    if count <= words.len() {
        return &mut words[0..count];
    }
    too_few();
    words
}

// Line k of a text; the last where it has fewer.
pub fn line(text: &[u8], k: usize) -> &[u8] {
    let mut n = k;
    let mut from = 0;
    for i in 0..text.len() {
        if text[i] == b'\n' {
            if n == 0 {
                return part(text, from, i);
            }
            n -= 1;
            from = i + 1;
        }
    }
    part(text, from, text.len())
}
