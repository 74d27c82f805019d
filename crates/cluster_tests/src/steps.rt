// Tests 12 to 16, in rising order, behind those before.
ghost use Rattle.std.specs.Prelude.{◌≡◌, length};
ghost use Rattle.sizes.specs.Sizes.{work_size};
ghost use Rattle.answer.specs.Answer.{and_then};
ghost use Rattle.remainders.specs.steps.Remainders.{AreRemainders};
ghost use Rattle.judging.specs.Tests.{ldc_columns_answer, sectors_answer};
ghost use Rattle.cluster_tests.specs.steps.Tested.{block_tested, cluster_tested};

use address::{Psn, PsnAnswer};
use answer::Answer;
use bis::Block;
use remainders::Remainders;

// The answer of tests 12 to 16, and what is made for them: the PSN, 0 where there is none, and its scrambling stream.
#[derive(Clone, Copy)]
pub struct Tested {
    pub answer: Answer,
    pub psn: Psn,
    pub stream: [u8; 2052],
}

// Tests 12 to 14, and the PSN.
fn test_block(table: &Remainders, block: Block) -> PsnAnswer
    requires { AreRemainders table.now }
    ensures { result ≡ block_tested block }
{
    let columns = judging::steps::bis_columns(table, block);
    let fields = judging::steps::address_fields(block);
    let found = judging::steps::psn(block);
    let answer = found.answer;
    let psn = found.psn;
    PsnAnswer {
        answer: columns.and_then(fields.and_then(answer)),
        psn: psn,
    }
}

// Tests 15 and 16, where those before are passed.
fn test_data(before: Answer, table: &Remainders, work: &[u8], stream: &[u8]) -> Answer
    requires { AreRemainders table.now × (length work.now ≡ work_size) }
    ensures { result ≡ and_then before (and_then (ldc_columns_answer work.now) (sectors_answer stream.now work.now)) }
{
    if before.is_done() {
        let columns = judging::steps::ldc_columns(table, work);
        if columns.is_done() {
            return judging::steps::sectors(work, stream);
        }
        return columns;
    }
    before
}

// All of them, in a cluster and its BIS block, behind the tests before.
pub fn test(before: Answer, work: &[u8], block: Block) -> Tested
    requires { length work.now ≡ work_size }
    ensures { result ≡ cluster_tested before block work.now }
{
    let mut table = remainders::steps::no_remainders();
    remainders::steps::fill_remainders(&mut table);
    let found = test_block(&table, block);
    let answer = found.answer;
    let psn = found.psn;
    let stream = scrambling::scrambling(psn);
    Tested {
        answer: test_data(before.and_then(answer), &table, work, &stream),
        psn: psn,
        stream: stream,
    }
}
