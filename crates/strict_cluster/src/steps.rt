// The tests first; then the lent slices are filled, or work is cleared.
ghost use Rattle.std.specs.Prelude.{◌≡◌, length};
ghost use Rattle.sizes.specs.Sizes.{frame_count, side_size, user_size, work_size};
ghost use Rattle.strict_cluster.specs.steps.Given.{Given, cluster_outcome};

use address::{Psn, PsnAnswer};
use answer::Answer;
use bis::Block;

// What a cluster was made of, with the dc words that were read beside it.
fn give(
    work: &[u8],
    block: Block,
    stream: &[u8],
    words: &[u32; sizes::FRAMES],
    user: &mut [u8],
    side: &mut [u8],
    dc: &mut [u32],
)
    requires { ((length work.now ≡ work_size) × (length user.old ≡ user_size)) × ((length side.old ≡ side_size) × ((length stream.now ≡ 2052) × ((length words.now ≡ frame_count) × (length dc.old ≡ frame_count)))) }
    ensures { Given work.now block stream.now words.now user.new side.new dc.new }
{
    user_reader::steps::user_bytes(work, stream, user);
    side_reader::side_data(block, side);
    dc.copy_from_slice(words);
}

// Reads the cluster in work, where `before`, the answer of the tests before, is `Done`: fills user, side and dc. A refusal leaves them and clears work.
pub fn read(
    before: Answer,
    work: &mut [u8],
    words: &[u32; sizes::FRAMES],
    user: &mut [u8],
    side: &mut [u8],
    dc: &mut [u32],
) -> PsnAnswer
    requires { ((length work.old ≡ work_size) × (length user.old ≡ user_size)) × ((length side.old ≡ side_size) × ((length words.now ≡ frame_count) × (length dc.old ≡ frame_count))) }
    ensures { record { answer = result.answer; psn = result.psn.0; lent = record { user = user.new; side = side.new; dc = dc.new; work = work.new } }
        ≡ cluster_outcome before work.old words.now (record { user = user.old; side = side.old; dc = dc.old; work = work.old }) }
{
    let block = bis_cluster::steps::bis_block(work);
    let tested = cluster_tests::steps::test(before, work, block);
    let answer = tested.answer;
    let psn = tested.psn;
    let stream = tested.stream;
    if answer.is_done() {
        give(work, block, &stream, words, user, side, dc);
        return PsnAnswer {
            answer: answer,
            psn: psn,
        };
    }
    slices::clear(work);
    PsnAnswer {
        answer: answer,
        psn: Psn(0),
    }
}
