// The marker for programs in other languages: numbers and slices only.
#![tactic(auto)]

ghost use Rattle.std.specs.Prelude.{◌≡◌, ◌↔◌};
ghost use Rattle.reader.specs.Promise.{RightSlices};
ghost use Rattle.marker.specs.Marked.{IsImageOf, marked};
ghost use Rattle.export_marker.specs.Exported.{marked_numbers};

use address::Psn;
use answer_numbers::Marking;

// Marks an image: whether it is that of these user bytes, this side data and this PSN under some dc words and some first #. The other slices
// are lent to read it.
pub fn mark_image(
    psn: u32,
    user: &[u8],
    side: &[u8],
    image: &[u8],
    bytes: &mut [u8],
    control: &mut [u8],
    dc: &mut [u32],
    work: &mut [u8],
) -> Marking
    ensures work_after { record { verdict = result.verdict; number = result.number; psn = result.psn; place = result.place; lent = record { user = bytes.new; side = control.new; dc = dc.new; work = work.new } }
        ≡ marked_numbers (marked psn user.now side.now image.now (record { user = bytes.old; side = control.old; dc = dc.old; work = work.old })) }
    ensures variant { RightSlices (record { user = bytes.old; side = control.old; dc = dc.old; work = work.old })
        → (result.verdict ≡ 0) ↔ IsImageOf psn user.now side.now image.now }
{
    Marking::of(marker::mark(Psn(psn), user, side, image, bytes, control, dc, work))
}
