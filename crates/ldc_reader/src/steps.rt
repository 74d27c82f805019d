// The code words of an eighth at a time.
ghost use Rattle.std.specs.Prelude.{◌≡◌, ◌<◌, length, SomeIff};
ghost use Rattle.laws.specs.First.{first};
ghost use Rattle.remainders.specs.steps.Remainders.{AreRemainders};
ghost use Rattle.cluster.specs.Reading.{first_wrong_word};
ghost use Rattle.ldc_words.specs.steps.Eighth.{wrong_of};
ghost use Rattle.sizes.specs.Sizes.{work_size};

use remainders::Remainders;

// The lowest of 38 code words that has not its 32 roots.
fn first_wrong_of(table: &Remainders, words: &[u8]) -> Option<usize>
    requires { AreRemainders table.now × (length words.now ≡ 9424) }
    ensures { SomeIff result (first 38 (wrong_of words.now) < 38) (first 38 (wrong_of words.now)) }
{
    for j in 0..38 {
        let from = 248 * j;
        let end = from + 248;
        if !code_word::steps::is_code_word(table, &words[from..end]) {
            return Some(j);
        }
    }
    None
}

// The lowest LDC column whose parity is wrong.
pub fn first_wrong_word(table: &Remainders, work: &[u8]) -> Option<usize>
    requires { AreRemainders table.now × (length work.now ≡ work_size) }
    ensures { SomeIff result (first_wrong_word work.now < 304) (first_wrong_word work.now) }
{
    let mut words = ldc_words::steps::no_words();
    for e in 0..8 {
        ldc_words::steps::take_words(work, e, 248, &mut words);
        if let Some(j) = first_wrong_of(table, &words) {
            return Some(38 * e + j);
        }
    }
    None
}
