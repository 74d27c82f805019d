// A PSN behind words.
ghost use Rattle.std.specs.Prelude.{◌≡◌, ◌++◌};
ghost use Rattle.texts.specs.Text.{blank_text, added};
ghost use Rattle.report.specs.Words.{psn_text};

use address::Psn;
use texts::{Text, blank, put, put_hexadecimal};

pub fn psn_behind(words: &[u8], psn: Psn) -> Text
    ensures { result ≡ added blank_text (words.now ++ psn_text psn.0) }
{
    let begun = put(blank(), words);
    let named = put_hexadecimal(begun, psn.0);
    put(named, b"\n")
}
