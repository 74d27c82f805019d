// Test 14: the PSN of a BIS block.
#![tactic(auto)]

ghost use Rattle.std.specs.Prelude.{◌≡◌, ◌<◌, SomeIff};
ghost use Rattle.answer.specs.declared.Answer.TheVariants.{Done};
ghost use Rattle.address.specs.Judged.{judged};
ghost use Rattle.bis.specs.AddressField.{restored};
ghost use Rattle.bis.specs.Reading.{aun_at, other_unit, first_other_unit, psn_in};

use address::{Aun, Psn};
use big_endian::word;
use bis::{Block, PsnFound};

// The AUN's high byte from PAF0.
fn restored(paf0: u8) -> u8
    ensures { result ≡ restored paf0 }
{
    paf0 / 16 * 16 + paf0 % 8 * 2 + paf0 / 8 % 2
}

// The AUN of address unit y.
fn aun_in(block: &Block, y: usize) -> Aun
    requires { y < 16 }
    ensures { result.0 ≡ aun_at block.now y }
{
    let [paf0, b, c, low, ..] = bis_fields::steps::primary_in(block, y);
    Aun(word(restored(paf0), b, c, low))
}

// Whether address unit y has another AUN than the PSN's.
fn is_other(block: &Block, psn: Psn, y: usize) -> bool
    requires { (judged psn.0 ≡ Done) × (y < 16) }
    ensures { result ≡ other_unit block.now psn.0 y }
{
    aun_in(block, y).0 != psn.aun(y as u32).aun.0
}

// The lowest address unit whose AUN is not the PSN's.
fn first_other_unit(block: &Block, psn: Psn) -> Option<usize>
    requires { judged psn.0 ≡ Done }
    ensures { SomeIff result (first_other_unit block.now psn.0 < 16) (first_other_unit block.now psn.0) }
{
    (0..16).find(|&y| is_other(block, psn, y))
}

// The accepted PSN that has the sixteen AUNs of the block, if there is one.
pub fn psn_in(block: Block) -> PsnFound
    ensures { result ≡ psn_in block }
{
    let first = aun_in(&block, 0).psn();
    let answer = first.answer;
    let psn = first.psn;
    if answer.is_done() {
        if first_other_unit(&block, psn).is_some() {
            return PsnFound::NotFound;
        }
        return PsnFound::Found(psn);
    }
    PsnFound::NotFound
}
