// The conversions of addresses for programs in other languages: numbers only.
#![tactic(auto)]

ghost use Rattle.std.specs.Prelude.{◌≡◌};
ghost use Rattle.address.specs.Conversions.{psn_to_paa, paa_to_psn, psn_to_aun, aun_to_psn};
ghost use Rattle.export_address.specs.Exported.{psn_seen, aun_seen, paa_seen};

use address::{Aun, Paa, Psn};
use answer_numbers::Converted;

// The PAA of the first word of the cluster at a PSN.
pub fn psn_to_paa(psn: u32) -> Converted
    ensures { result ≡ paa_seen (psn_to_paa psn) }
{
    let found = Psn(psn).paa();
    let answer = found.answer;
    Converted::of(answer, found.paa.0)
}

// The AUN of an address unit, 0 to 15, of the cluster at a PSN; 0 for a unit above 15.
pub fn psn_to_aun(psn: u32, unit: u32) -> Converted
    ensures { result ≡ aun_seen (psn_to_aun psn unit) }
{
    let found = Psn(psn).aun(unit);
    let answer = found.answer;
    Converted::of(answer, found.aun.0)
}

// The PSN of the cluster whose first word has a PAA.
pub fn paa_to_psn(paa: u32) -> Converted
    ensures { result ≡ psn_seen (paa_to_psn paa) }
{
    let found = Paa(paa).psn();
    let answer = found.answer;
    Converted::of(answer, found.psn.0)
}

// The PSN of the cluster that holds the address unit with an AUN.
pub fn aun_to_psn(aun: u32) -> Converted
    ensures { result ≡ psn_seen (aun_to_psn aun) }
{
    let found = Aun(aun).psn();
    let answer = found.answer;
    Converted::of(answer, found.psn.0)
}
