// The code words of an eighth.
ghost use Rattle.std.specs.Prelude.{◌≡◌, ◌++◌, ◌+◌, length};
ghost use Rattle.remainders.specs.steps.Remainders.{AreRemainders};
ghost use Rattle.ldc_words.specs.steps.Eighth.{completed, completed_words};

use remainders::Remainders;

// Information bytes and parity bytes, one behind the other.
fn join(information: &[u8], parity: &[u8; 32], word: &mut [u8])
    requires { (length information.now ≡ 216) × ((length parity.now ≡ 32) × (length word.old ≡ 248)) }
    ensures { word.new ≡ information.now ++ parity.now }
{
    word[..216].copy_from_slice(information);
    word[216..].copy_from_slice(parity);
}

// A code word of 216 information bytes.
fn complete(table: &Remainders, information: &[u8], word: &mut [u8])
    requires { AreRemainders table.now × ((length information.now ≡ 216) × (length word.old ≡ 248)) }
    ensures { word.new ≡ completed information.now }
{
    let mut parity = [0u8; 32];
    code_word::steps::parity_32_by(table, information, &mut parity);
    join(information, &parity, word);
}

// The code words of the information bytes of four data frames.
pub fn complete_words(table: &Remainders, frames: &[u8], words: &mut [u8])
    requires { AreRemainders table.now × ((length frames.now ≡ 8208) × (length words.old ≡ 9424)) }
    ensures { words.new ≡ completed_words frames.now }
{
    for j in 0..38 {
        let from = 216 * j;
        let end = from + 216;
        let to = 248 * j;
        let past = to + 248;
        complete(table, &frames[from..end], &mut words[to..past]);
    }
}
