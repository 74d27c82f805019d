// A sheet of addresses (document 02, W-211): 1 to 64 PSNs, accepted or refused as a whole.
#![tactic(auto)]

ghost use Rattle.std.specs.Prelude.{◌≡◌, ◌↔◌, ◌≤◌, ◌<◌, ltb};
ghost use Rattle.answer.specs.declared.Answer.TheVariants.{Done};
ghost use Rattle.laws.specs.First.{first};
ghost use Rattle.address_sheet.specs.Sheet.{count_answer, alone_by, repeats, entries_answer, sheet_answer, entry_psn};
ghost use Rattle.address_sheet.specs.Promise.{RightSheet};

use address::Psn;
use answer::Answer;

// The most PSNs of a sheet.
pub const SHEET: usize = 64;

fn judge_count(count: usize) -> Answer
    ensures { result ≡ count_answer count }
{
    if count == 0 {
        return Answer::WrongCount;
    }
    if SHEET < count {
        return Answer::WrongCount;
    }
    Answer::Done
}

// The lowest entry whose PSN, alone, is answered by this number; count where there is none.
fn first_alone_by(psns: [Psn; SHEET], count: usize, number: u32) -> usize
    requires { count ≤ 64 }
    ensures { result ≡ first count (alone_by number (entry_psn psns)) }
{
    let mut i = 0;
    while i < count {
        let psn = psns[i];
        if psn.judge().number() == number {
            return i;
        }
        i += 1;
    }
    count
}

// The nearest entry before i that has its PSN, i where there is none.
fn nearest_same(psns: [Psn; SHEET], i: usize) -> usize
    requires { i < 64 }
    ensures { (result ≤ i) × (ltb result i ≡ repeats (entry_psn psns) i) }
{
    let mut j = i;
    while 0 < j {
        j -= 1;
        if psns[j].0 == psns[i].0 {
            return j;
        }
    }
    i
}

// The lowest entry whose PSN an earlier one has, count where there is none.
fn first_repeated(psns: [Psn; SHEET], count: usize) -> usize
    requires { count ≤ 64 }
    ensures { result ≡ first count (repeats (entry_psn psns)) }
{
    let mut later = 0;
    while later < count {
        let earlier = nearest_same(psns, later);
        // how far back it stands, 0 where it is none
        let back = later - earlier;
        if back != 0 {
            return later;
        }
        later += 1;
    }
    count
}

// Tests 6, 7 and 24, each over all entries before the next.
fn judge_entries(psns: [Psn; SHEET], count: usize) -> Answer
    requires { count ≤ 64 }
    ensures { result ≡ entries_answer count (entry_psn psns) }
{
    let multiple = first_alone_by(psns, count, 6);
    if multiple < count {
        return Answer::NoMultiple(multiple);
    }
    let zone = first_alone_by(psns, count, 7);
    if zone < count {
        return Answer::NoZone(zone);
    }
    let repeated = first_repeated(psns, count);
    if repeated < count {
        return Answer::Repeated(repeated);
    }
    Answer::Done
}

// Judges the first `count` entries as one sheet: 0, or 23, 6, 7 and 24, tested in this order.
pub fn judge(psns: [Psn; SHEET], count: usize) -> Answer
    ensures value { result ≡ sheet_answer count (entry_psn psns) }
    ensures variant { (result ≡ Done) ↔ RightSheet count (entry_psn psns) }
{
    let counted = judge_count(count);
    if counted.is_done() {
        return judge_entries(psns, count);
    }
    counted
}
