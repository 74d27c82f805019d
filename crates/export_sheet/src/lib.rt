// A sheet of addresses for programs in other languages: numbers and slices only.
#![tactic(auto)]

ghost use Rattle.std.specs.Prelude.{◌≡◌, ◌↔◌, length};
ghost use Rattle.answer_numbers.specs.Numbers.{answered};
ghost use Rattle.address_sheet.specs.Sheet.{sheet_answer};
ghost use Rattle.address_sheet.specs.Promise.{RightSheet};
ghost use Rattle.export_sheet.specs.Exported.{given_psn, given_psns};

use address::Psn;
use answer_numbers::Answered;
use std::array;

// Number i, 0 where there is none.
fn number_at(given: &[u32], i: usize) -> u32
    ensures { result ≡ given_psn given.now i }
{
    given.get(i).copied().unwrap_or(0)
}

// The first 64 numbers as PSNs.
fn psns_of(given: &[u32]) -> [Psn; address_sheet::SHEET]
    ensures { result ≡ given_psns given.now }
{
    array::from_fn(|i| Psn(number_at(given, i)))
}

// Judges a sheet of PSNs.
pub fn judge_sheet(psns: &[u32]) -> Answered
    ensures value { result ≡ answered (sheet_answer (length psns.now) (given_psn psns.now)) }
    ensures variant { (result.number ≡ 0) ↔ RightSheet (length psns.now) (given_psn psns.now) }
{
    let answer = address_sheet::judge(psns_of(psns), psns.len());
    Answered::of(answer)
}
