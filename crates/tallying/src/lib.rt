// What the tally program prints, as bytes: how often each gap length occurs in the frame that its input gives.
#![tactic(auto)]

ghost use Rattle.std.specs.Prelude.{◌≡◌};
ghost use Rattle.texts.specs.Text.{added, text_of};
ghost use Rattle.frame_gaps.specs.Tally.{tallied};
ghost use Rattle.tallying.specs.Table.{row, rows_from, tally_from, tally_text};

use gaps::Tally;
use texts::{Text, blank, put, put_decimal, put_piece};

// A gap length and its count.
fn put_row(text: Text, gap: usize, count: u32) -> Text
    ensures { result ≡ added text (row gap count) }
{
    let begun = put_decimal(text, gap as u64);
    put_piece(begun, b" *\n", 0, count as usize)
}

fn put_rows(text: Text, counts: [u32; 8]) -> Text
    ensures { result ≡ added text (rows_from 1 counts) }
{
    let mut done = text;
    for k in 0..8 {
        done = put_row(done, k + 1, counts[k]);
    }
    done
}

// What was found of an input: refused where it gives no counts.
fn tally_from(found: Option<[u32; 8]>) -> Tally
    ensures { result ≡ tally_from found }
{
    match found {
        Some(counts) => Tally {
            accepted: true,
            counts,
        },
        None => Tally {
            accepted: false,
            counts: [0; 8],
        },
    }
}

// The counts of an accepted input, one to a line, or `refused`.
pub fn tally_text(tally: Tally) -> Text
    ensures { result ≡ text_of (tally_text tally) }
{
    let Tally { accepted, counts } = tally;
    if accepted {
        return put_rows(put(blank(), b"gap count\n"), counts);
    }
    put(blank(), b"refused\n")
}

// The whole of it.
pub fn tally(input: &[u8]) -> Text
    ensures { result ≡ text_of (tally_text (tally_from (tallied input.now))) }
{
    let tally = tally_from(frame_gaps::tally_of(input));
    tally_text(tally)
}
