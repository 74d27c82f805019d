// The strict reader: what an image was made of, or why it is no image.
#![tactic(auto)]

ghost use Rattle.std.specs.Prelude.{◌≡◌, length};
ghost use Rattle.sizes.specs.Sizes.{frame_count, image_size, work_size};
ghost use Rattle.bits.specs.Bits.{bits_of};
ghost use Rattle.answer.specs.Answer.{number_of};
ghost use Rattle.reader.specs.Outcome.{outcome};
ghost use Rattle.reader.specs.Promise.{ReadsExactly};
ghost use Rattle.reader.specs.steps.Read.{RecordingTested};

use address::Psn;
use answer::Answer;

// What the reader answers; `first` is # of the sync of frame 0, true for ONE. On refusal the PSN is 0 and `first` false.
#[derive(Clone, Copy)]
pub struct Read {
    pub answer: Answer,
    pub psn: Psn,
    pub first: bool,
}

// Tests 9 to 11; where they are passed the ECC cluster stands in work and its dc words in words.
fn test_recording(image: &[u8], words: &mut [u32], work: &mut [u8]) -> Answer
    requires { (length image.now ≡ image_size) × ((length words.old ≡ frame_count) × (length work.old ≡ work_size)) }
    ensures { RecordingTested (bits_of image.now) result words.new work.new }
{
    let last = judging::steps::last_bits(image);
    let answer = last.and_then(judging::steps::syncs(image, 0));
    if answer.is_done() {
        return judging::steps::frames(image, 0, words, work);
    }
    answer
}

fn no_words() -> [u32; sizes::FRAMES]
    ensures { length result ≡ frame_count }
{
    [0u32; sizes::FRAMES]
}

// Reads an image strictly. Document 01's answers 0 to 5 and 9 to 16: on 0 the user bytes, side data and dc words that the image was made
// of, and in work its ECC cluster; on 1 to 5 every slice as it was; on 9 to 16 work zeros and the others as they were.
pub fn read_image(
    image: &[u8],
    user: &mut [u8],
    side: &mut [u8],
    dc: &mut [u32],
    work: &mut [u8],
) -> Read
    ensures work_after { record { answer = result.answer; psn = result.psn.0; first = result.first; lent = record { user = user.new; side = side.new; dc = dc.new; work = work.new } }
        ≡ outcome image.now (record { user = user.old; side = side.old; dc = dc.old; work = work.old }) }
    ensures reads_exactly { ReadsExactly image.now (record { user = user.old; side = side.old; dc = dc.old; work = work.old })
        (number_of result.answer) result.psn.0 result.first (record { user = user.new; side = side.new; dc = dc.new; work = work.new }) }
{
    let given = lengths::judge(user.len(), side.len(), dc.len(), image.len(), work.len());
    if given.is_done() {
        let mut words = no_words();
        let tested = test_recording(image, &mut words, work);
        let read = strict_cluster::steps::read(tested, work, &words, user, side, dc);
        let answer = read.answer;
        let psn = read.psn;
        let first = recording_syncs::steps::first_hash(answer, image, 0);
        return Read { answer, psn, first };
    }
    Read {
        answer: given,
        psn: Psn(0),
        first: false,
    }
}
