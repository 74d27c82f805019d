// The marker's verdict: whether an image is that of these user bytes, this side data and this PSN under some dc-control bits and some first #.
#![tactic(auto)]

ghost use Rattle.std.specs.Prelude.{◌≡◌, ◌↔◌, length};
ghost use Rattle.reader.specs.Outcome.{outcome};
ghost use Rattle.reader.specs.Promise.{RightSlices};
ghost use Rattle.marker.specs.Marked.{marked_read, marked, IsImageOf};
ghost use Rattle.sizes.specs.Sizes.{side_size, user_size};

use address::Psn;
use answer::Answer;
use verdict::Verdict;

// The image is read, and what is given has its lengths.
fn mark_sized(
    psn: Psn,
    user: &[u8],
    side: &[u8],
    image: &[u8],
    bytes: &mut [u8],
    control: &mut [u8],
    dc: &mut [u32],
    work: &mut [u8],
) -> Verdict
    requires { (length user.now ≡ user_size) × (length side.now ≡ side_size) }
    ensures { record { verdict = result; lent = record { user = bytes.new; side = control.new; dc = dc.new; work = work.new } }
        ≡ marked_read psn.0 user.now side.now (outcome image.now (record { user = bytes.old; side = control.old; dc = dc.old; work = work.old })) }
{
    let read = reader::read_image(image, bytes, control, dc, work);
    let answer = read.answer;
    let found = read.psn;
    if answer.is_done() {
        return comparison::steps::compare(psn, user, side, found, bytes, control);
    }
    Verdict::Refused(answer)
}

// Marks an image. It is lent bytes, control, dc and work, in which it leaves what the reader leaves for user bytes, side data, dc words and work.
pub fn mark(
    psn: Psn,
    user: &[u8],
    side: &[u8],
    image: &[u8],
    bytes: &mut [u8],
    control: &mut [u8],
    dc: &mut [u32],
    work: &mut [u8],
) -> Verdict
    ensures work_after { record { verdict = result; lent = record { user = bytes.new; side = control.new; dc = dc.new; work = work.new } }
        ≡ marked psn.0 user.now side.now image.now (record { user = bytes.old; side = control.old; dc = dc.old; work = work.old }) }
    ensures variant { RightSlices (record { user = bytes.old; side = control.old; dc = dc.old; work = work.old })
        → (result ≡ Verdict.Pass) ↔ IsImageOf psn.0 user.now side.now image.now }
{
    let one = lengths::sized(user.len(), sizes::USER, Answer::WrongUser(0));
    let two = lengths::sized(side.len(), sizes::SIDE, Answer::WrongSide);
    let given = one.and_then(two);
    if given.is_done() {
        return mark_sized(psn, user, side, image, bytes, control, dc, work);
    }
    Verdict::Refused(given)
}
