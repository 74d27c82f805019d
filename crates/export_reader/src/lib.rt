// The reader for programs in other languages: numbers and slices only.
#![tactic(auto)]

ghost use Rattle.std.specs.Prelude.{◌≡◌};
ghost use Rattle.reader.specs.Outcome as reader;
ghost use Rattle.reader.specs.Promise.{ReadsExactly};
ghost use Rattle.export_reader.specs.Exported.{reading};

use answer_numbers::ReadAnswered;

// Reads an image strictly.
pub fn read_image(
    image: &[u8],
    user: &mut [u8],
    side: &mut [u8],
    dc: &mut [u32],
    work: &mut [u8],
) -> ReadAnswered
    ensures work_after { record { number = result.number; place = result.place; psn = result.psn; first = result.first; lent = record { user = user.new; side = side.new; dc = dc.new; work = work.new } }
        ≡ reading (reader.outcome image.now (record { user = user.old; side = side.old; dc = dc.old; work = work.old })) }
    ensures reads_exactly { ReadsExactly image.now (record { user = user.old; side = side.old; dc = dc.old; work = work.old })
        result.number result.psn result.first (record { user = user.new; side = side.new; dc = dc.new; work = work.new }) }
{
    let read = reader::read_image(image, user, side, dc, work);
    let answer = read.answer;
    let psn = read.psn;
    let first = read.first;
    ReadAnswered::of(answer, psn, first)
}
