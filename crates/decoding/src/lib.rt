// What decode does between its files, on slices.
#![tactic(auto)]

ghost use Rattle.std.specs.Prelude.{◌≡◌};
ghost use Rattle.decoding.specs.Decoded.{SaidOf, decoded_words, decoded};

use address::Psn;
use answer::Answer;
use report::Said;

// What is said of an image that was read: the PSN and the first #, and dc gets the bytes of the words; or the answer that refuses it.
fn say(answer: Answer, psn: Psn, first: bool, words: &[u32], dc: &mut [u8]) -> Said
    ensures { SaidOf answer psn.0 first words.now dc.old result.keep result.text dc.new }
{
    if answer.is_done() {
        notation::bytes_of(words, dc);
        return Said {
            keep: true,
            text: psn_report::read_text(psn, first),
        };
    }
    Said {
        keep: false,
        text: answer_report::answer_text(answer),
    }
}

// What an image was made of, its dc words by way of `words`.
fn decode_words(
    image: &[u8],
    user: &mut [u8],
    side: &mut [u8],
    words: &mut [u32],
    dc: &mut [u8],
) -> Said
    ensures { record { keep = result.keep; text = result.text; user = user.new; side = side.new; dc = dc.new }
        ≡ decoded_words image.now user.old side.old words.old dc.old }
{
    let mut work: [u8; sizes::WORK] = buffers::zeros();
    let read = reader::read_image(image, user, side, words, &mut work);
    let answer = read.answer;
    let psn = read.psn;
    let first = read.first;
    say(answer, psn, first, words, dc)
}

// What an image was made of; the dc words as four bytes each. No words are read for a slice of another length: 3 refuses it.
pub fn decode(image: &[u8], user: &mut [u8], side: &mut [u8], dc: &mut [u8]) -> Said
    ensures { record { keep = result.keep; text = result.text; user = user.new; side = side.new; dc = dc.new }
        ≡ decoded image.now user.old side.old dc.old }
{
    let mut words = buffers::dc_words();
    let n = notation::word_count(dc.len());
    decode_words(image, user, side, &mut words[..n], dc)
}
