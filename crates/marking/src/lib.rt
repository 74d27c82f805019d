// What mark does between its files, on slices.
#![tactic(auto)]

ghost use Rattle.std.specs.Prelude.{◌≡◌, ◌↔◌};
ghost use Rattle.texts.specs.Text.{the, text_of};
ghost use Rattle.marker.specs.Marked.{IsImageOf};
ghost use Rattle.marking.specs.Marking.{mark_text};

use address::Psn;
use texts::Text;

// Whether an image is that of these user bytes, this side data and this PSN under some dc words and some first #.
pub fn mark(psn: Psn, user: &[u8], side: &[u8], image: &[u8]) -> Text
    ensures value { result ≡ text_of (mark_text psn.0 user.now side.now image.now) }
    ensures variant { (result ≡ text_of (the "pass\n")) ↔ IsImageOf psn.0 user.now side.now image.now }
{
    let mut bytes: [u8; sizes::USER] = buffers::zeros();
    let mut control: [u8; sizes::SIDE] = buffers::zeros();
    let mut dc = buffers::dc_words();
    let mut work: [u8; sizes::WORK] = buffers::zeros();
    let verdict = marker::mark(
        psn,
        user,
        side,
        image,
        &mut bytes,
        &mut control,
        &mut dc,
        &mut work,
    );
    verdict_report::verdict_text(verdict)
}
