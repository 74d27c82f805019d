// What the programs print for a verdict, as bytes.
#![tactic(auto)]

ghost use Rattle.std.specs.Prelude.{◌≡◌};
ghost use Rattle.texts.specs.Text.{text_of};
ghost use Rattle.report.specs.Words.{verdict_text};

use answer_report::answer_text;
use psn_report::steps::psn_behind;
use texts::{Text, blank, put, put_piece};
use verdict::Verdict;

// `pass`, or the first difference, or a refusal's answer.
pub fn verdict_text(verdict: Verdict) -> Text
    ensures { result ≡ text_of (verdict_text verdict) }
{
    match verdict {
        Verdict::Pass => put(blank(), b"pass\n"),
        Verdict::Refused(answer) => answer_text(answer),
        Verdict::OtherPsn(psn) => psn_behind(b"the PSN differs: the image has ", psn),
        Verdict::OtherUser(n) => put_piece(blank(), b"user byte * differs\n", 0, n),
        Verdict::OtherSide(n) => put_piece(blank(), b"side byte * differs\n", 0, n),
    }
}
