// The writer for programs in other languages: numbers and slices only.
#![tactic(auto)]

ghost use Rattle.std.specs.Prelude.{◌≡◌};
ghost use Rattle.writer.specs.Outcome as writer;
ghost use Rattle.writer.specs.Promise.{WritesExactly};
ghost use Rattle.export_writer.specs.Exported.{writing};

use address::Psn;
use answer_numbers::Answered;

// Writes the image of a cluster.
pub fn write_image(
    user: &[u8],
    psn: u32,
    side: &[u8],
    dc: &[u32],
    first: bool,
    image: &mut [u8],
    work: &mut [u8],
) -> Answered
    ensures work_after { record { number = result.number; place = result.place; image = image.new; work = work.new }
        ≡ writing (writer.outcome (record { user = user.now; psn = psn; side = side.now; dc = dc.now; first = first }) image.old work.old) }
    ensures writes_exactly { WritesExactly (record { user = user.now; psn = psn; side = side.now; dc = dc.now; first = first }) image.old work.old
        result.number image.new work.new }
{
    Answered::of(writer::write_image(user, Psn(psn), side, dc, first, image, work))
}
