// What the programs print of an image that was read, as bytes. `steps` is for the crates of this repository.
#![tactic(auto)]

pub mod steps;

ghost use Rattle.std.specs.Prelude.{◌≡◌};
ghost use Rattle.texts.specs.Text.{text_of};
ghost use Rattle.report.specs.Words.{read_text};

use address::Psn;
use texts::{Text, put};

// The PSN and the first #.
pub fn read_text(psn: Psn, first: bool) -> Text
    ensures { result ≡ text_of (read_text psn.0 first) }
{
    let named = steps::psn_behind(b"", psn);
    if first {
        put(named, b"first # 1\n")
    } else {
        put(named, b"first # 0\n")
    }
}
