// What the programs print for an answer, as bytes.
#![tactic(auto)]

ghost use Rattle.std.specs.Prelude.{◌≡◌};
ghost use Rattle.texts.specs.Text.{added, text_of};
ghost use Rattle.report.specs.Words.{meaning, answer_text};

use answer::Answer;
use texts::{Text, blank, put_decimal, put_piece};

// What an answer means; nothing for 0.
pub fn put_meaning(text: Text, answer: Answer) -> Text
    ensures { result ≡ added text (meaning answer) }
{
    // The piece of the answer's number, with its place. No answer has 17 to 20 or 25.
    let pieces = b"\
        |the user data are not 65536 bytes\n\
        |the side data are not 592 bytes\n\
        |there are not 496 dc words\n\
        |the image is not 119788 bytes\n\
        |the work slice is not 76880 bytes\n\
        |the PSN is no multiple of 32\n\
        |the PSN lies in no data zone\n\
        |dc word * is above 0FFFFFFF\n\
        |the last two bits are not zero\n\
        |the frame sync of frame * is wrong\n\
        |no bits give frame * and the # behind it\n\
        |BIS column * has a wrong parity\n\
        |the address field of unit * has a wrong parity\n\
        |no accepted PSN has these address unit numbers\n\
        |LDC column * has a wrong parity\n\
        |sector * has a wrong error-detection code\n\
        ||||\
        |the frame is not 155 bytes\n\
        |the data are not 1 to 223 bytes, or the parity is not 32\n\
        |the sheet has not 1 to 64 PSNs\n\
        |an earlier entry has the same PSN\n\
        |\
        |the record is no submit and no serve\n\
        |the bench is above 3\n\
        |the bench has a waiting order\n";
    put_piece(text, pieces, answer.number() as usize, answer.place())
}

// Number and place, and what they mean.
pub fn answer_text(answer: Answer) -> Text
    ensures { result ≡ text_of (answer_text answer) }
{
    let numbered = put_decimal(blank(), answer.number() as u64);
    let placed = put_piece(numbered, b" *\n", 0, answer.place());
    put_meaning(placed, answer)
}
