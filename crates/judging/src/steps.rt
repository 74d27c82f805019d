// Each test by itself: `Done`, or its refusal with the lowest place that fails.
ghost use Rattle.std.specs.Prelude.{◌≡◌, length, drop};
ghost use Rattle.sizes.specs.Sizes.{frame_count, work_size};
ghost use Rattle.bits.specs.Bits.{bits_of};
ghost use Rattle.remainders.specs.steps.Remainders.{AreRemainders};
ghost use Rattle.recording.specs.steps.Within.{Within};
ghost use Rattle.judging.specs.Tests.{last_bits_answer, syncs_answer, bis_columns_answer, address_fields_answer, psn_answer, ldc_columns_answer, sectors_answer};
ghost use Rattle.judging.specs.steps.Tested.{FramesTested};

use address::{Psn, PsnAnswer};
use answer::Answer;
use bis::{Block, PsnFound};
use remainders::Remainders;

// 9: the last two bits of an image.
pub fn last_bits(image: &[u8]) -> Answer
    ensures { result ≡ last_bits_answer (bits_of image.now) }
{
    if bits::read_bit(image, 958302) != 0 {
        return Answer::LastBits;
    }
    if bits::read_bit(image, 958303) != 0 {
        return Answer::LastBits;
    }
    Answer::Done
}

// 10: the syncs of a recording from bit `at` on.
#[tactic(auto, using(crate::proofs::Judging::placed, crate::proofs::Judging::unplaced), unfolding(crate::specs::Tests::syncs_answer))]
pub fn syncs(image: &[u8], at: usize) -> Answer
    requires { Within image.now at }
    ensures { result ≡ syncs_answer (drop at (bits_of image.now)) }
{
    match recording_syncs::steps::first_wrong_sync(image, at) {
        Some(sync) => Answer::Sync(sync),
        None => Answer::Done,
    }
}

// 11: its frames. Where they are passed the ECC cluster stands in work and the dc words in dc.
pub fn frames(image: &[u8], at: usize, dc: &mut [u32], work: &mut [u8]) -> Answer
    requires { Within image.now at × ((length dc.old ≡ frame_count) × (length work.old ≡ work_size)) }
    ensures { FramesTested (drop at (bits_of image.now)) result dc.new work.new }
{
    let passed = Answer::Done;
    match recording_frames::steps::read_frames(image, at, dc, work) {
        Some(n) => Answer::Frame(n),
        None => passed,
    }
}

// 12: the columns of a BIS block.
#[tactic(auto, using(crate::proofs::Judging::placed, crate::proofs::Judging::unplaced), unfolding(crate::specs::Tests::bis_columns_answer))]
pub fn bis_columns(table: &Remainders, block: Block) -> Answer
    requires { AreRemainders table.now }
    ensures { result ≡ bis_columns_answer block }
{
    match bis_columns::steps::first_wrong_column_by(table, block) {
        Some(column) => Answer::BisColumn(column),
        None => Answer::Done,
    }
}

// 13: its address fields.
#[tactic(auto, using(crate::proofs::Judging::placed, crate::proofs::Judging::unplaced), unfolding(crate::specs::Tests::address_fields_answer))]
pub fn address_fields(block: Block) -> Answer
    ensures { result ≡ address_fields_answer block }
{
    match bis_fields::first_wrong_field(block) {
        Some(unit) => Answer::AddressUnit(unit),
        None => Answer::Done,
    }
}

// 14: its PSN, 0 where it has none.
pub fn psn(block: Block) -> PsnAnswer
    ensures { result ≡ psn_answer block }
{
    let found = bis_psn::psn_in(block);
    match found {
        PsnFound::Found(psn) => PsnAnswer {
            answer: Answer::Done,
            psn: psn,
        },
        PsnFound::NotFound => PsnAnswer {
            answer: Answer::NoPsn,
            psn: Psn(0),
        },
    }
}

// 15: the LDC columns of an ECC cluster.
#[tactic(auto, using(crate::proofs::Judging::placed, crate::proofs::Judging::unplaced), unfolding(crate::specs::Tests::ldc_columns_answer))]
pub fn ldc_columns(table: &Remainders, work: &[u8]) -> Answer
    requires { AreRemainders table.now × (length work.now ≡ work_size) }
    ensures { result ≡ ldc_columns_answer work.now }
{
    match ldc_reader::steps::first_wrong_word(table, work) {
        Some(column) => Answer::LdcColumn(column),
        None => Answer::Done,
    }
}

// 16: its sectors, scrambled with this stream.
#[tactic(auto, using(crate::proofs::Judging::placed, crate::proofs::Judging::unplaced), unfolding(crate::specs::Tests::sectors_answer))]
pub fn sectors(work: &[u8], stream: &[u8]) -> Answer
    requires { length work.now ≡ work_size }
    ensures { result ≡ sectors_answer stream.now work.now }
{
    match sector_reader::steps::first_wrong_sector(work, stream) {
        Some(sector) => Answer::Sector(sector),
        None => Answer::Done,
    }
}
