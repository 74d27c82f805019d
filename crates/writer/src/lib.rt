// The writer: the image of a cluster, from its user bytes, PSN, side data, dc words and first #.
#![tactic(auto)]

ghost use Rattle.std.specs.Prelude.{◌≡◌, length};
ghost use Rattle.answer.specs.Answer.{number_of, and_then};
ghost use Rattle.lengths.specs.Lengths.{lengths_answer};
ghost use Rattle.input_tests.specs.Parts.{parts_answer};
ghost use Rattle.writer.specs.Outcome.{outcome};
ghost use Rattle.writer.specs.Promise.{WritesExactly};

use address::Psn;
use answer::Answer;

// All tests, in rising order.
fn judge(user: usize, psn: Psn, side: usize, dc: &[u32], image: usize, work: usize) -> Answer
    ensures { result ≡ and_then (lengths_answer user side (length dc.now) image work) (parts_answer psn.0 dc.now) }
{
    let given = lengths::judge(user, side, dc.len(), image, work);
    if given.is_done() {
        return input_tests::steps::judge(psn, dc);
    }
    given
}

// Writes the image of a cluster; `first` is # of the sync of frame 0, true for ONE. Document 01's answers 0 to 8: on 0 the image and, in work,
// the ECC cluster; on any other both as they were.
pub fn write_image(
    user: &[u8],
    psn: Psn,
    side: &[u8],
    dc: &[u32],
    first: bool,
    image: &mut [u8],
    work: &mut [u8],
) -> Answer
    ensures work_after { record { answer = result; image = image.new; work = work.new }
        ≡ outcome (record { user = user.now; psn = psn.0; side = side.now; dc = dc.now; first = first }) image.old work.old }
    ensures writes_exactly { WritesExactly (record { user = user.now; psn = psn.0; side = side.now; dc = dc.now; first = first }) image.old work.old
        (number_of result) image.new work.new }
{
    let answer = judge(user.len(), psn, side.len(), dc, image.len(), work.len());
    if answer.is_done() {
        image_writer::steps::write(user, psn, side, dc, first, image, work);
        return Answer::Done;
    }
    answer
}
