// The marker's verdict on an image, and as numbers for a caller in another language.
#![tactic(auto)]

ghost use Rattle.std.specs.Prelude.{◌≡◌};
ghost use Rattle.verdict.specs.Verdict.{kind_of, refusal_in, own_psn, place_in};

use address::Psn;
use answer::Answer;

// Document 01 has no number for it; `Refused` carries the reader's answer.
#[derive(Clone, Copy)]
pub enum Verdict {
    Pass,
    // The reader's answer; or 1 or 2, where the given user bytes or side data have another length.
    Refused(Answer),
    // The image's own PSN.
    OtherPsn(Psn),
    // The first byte that is another.
    OtherUser(usize),
    OtherSide(usize),
}

impl Verdict {
    pub fn kind(self) -> u32
        ensures { result ≡ kind_of self }
    {
        match self {
            Verdict::Pass => 0,
            Verdict::Refused(_) => 1,
            Verdict::OtherPsn(_) => 2,
            Verdict::OtherUser(_) => 3,
            Verdict::OtherSide(_) => 4,
        }
    }

    // The answer's number.
    pub fn refusal(self) -> u32
        ensures { result ≡ refusal_in self }
    {
        match self {
            Verdict::Pass => 0,
            Verdict::Refused(answer) => answer.number(),
            Verdict::OtherPsn(_) => 0,
            Verdict::OtherUser(_) => 0,
            Verdict::OtherSide(_) => 0,
        }
    }

    pub fn own_psn(self) -> u32
        ensures { result ≡ own_psn self }
    {
        match self {
            Verdict::Pass => 0,
            Verdict::Refused(_) => 0,
            Verdict::OtherPsn(psn) => psn.0,
            Verdict::OtherUser(_) => 0,
            Verdict::OtherSide(_) => 0,
        }
    }

    // The answer's place, or the first byte that is another.
    pub fn place(self) -> usize
        ensures { result ≡ place_in self }
    {
        match self {
            Verdict::Pass => 0,
            Verdict::Refused(answer) => answer.place(),
            Verdict::OtherPsn(_) => 0,
            Verdict::OtherUser(n) => n,
            Verdict::OtherSide(n) => n,
        }
    }
}
