// What encode does between its files, on slices.
#![tactic(auto)]

ghost use Rattle.std.specs.Prelude.{◌≡◌};
ghost use Rattle.encoding.specs.Encoded.{encoded_words, encoded};

use address::Psn;
use report::Said;

// The image of a cluster with these dc words and this first #.
fn encode_words(
    psn: Psn,
    user: &[u8],
    side: &[u8],
    words: &[u32],
    first: bool,
    image: &mut [u8],
) -> Said
    ensures { record { keep = result.keep; text = result.text; image = image.new }
        ≡ encoded_words psn.0 user.now side.now words.now first image.old }
{
    let mut work: [u8; sizes::WORK] = buffers::zeros();
    let answer = writer::write_image(user, psn, side, words, first, image, &mut work);
    Said {
        keep: answer.is_done(),
        text: answer_report::answer_text(answer),
    }
}

// The image of a cluster; the dc words are four bytes each, high byte first. No words stand in for bytes of another number: 3 refuses them.
pub fn encode(psn: Psn, user: &[u8], side: &[u8], dc: &[u8], first: bool, image: &mut [u8]) -> Said
    ensures { record { keep = result.keep; text = result.text; image = image.new }
        ≡ encoded psn.0 user.now side.now dc.now first image.old }
{
    let mut words = buffers::dc_words();
    notation::words_of(dc, &mut words);
    let n = notation::word_count(dc.len());
    encode_words(psn, user, side, &words[..n], first, image)
}
