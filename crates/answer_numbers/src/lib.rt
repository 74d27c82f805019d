// What a caller in another language sees of an answer: numbers.
#![tactic(auto)]

ghost use Rattle.std.specs.Prelude.{◌≡◌};
ghost use Rattle.answer_numbers.specs.Numbers.{answered, read_answered, marking, converted};

use address::Psn;
use answer::Answer;
use verdict::Verdict;

// The documents' number and place.
#[repr(C)]
#[derive(Clone, Copy)]
pub struct Answered {
    pub number: u32,
    pub place: usize,
}

// What the reader answers; on refusal the PSN is 0 and the first # false.
#[repr(C)]
#[derive(Clone, Copy)]
pub struct ReadAnswered {
    pub number: u32,
    pub psn: u32,
    pub place: usize,
    pub first: bool,
}

// What the marker answers: 0 pass; 1 refused, with the reader's number and place; 2 another PSN, with the image's own; 3 other user bytes and
// 4 other side data, with the first place that differs.
#[repr(C)]
#[derive(Clone, Copy)]
pub struct Marking {
    pub verdict: u32,
    pub number: u32,
    pub psn: u32,
    pub place: usize,
}

// What a conversion answers: 0, 6 or 7, and the number asked for, 0 on refusal.
#[repr(C)]
#[derive(Clone, Copy)]
pub struct Converted {
    pub number: u32,
    pub value: u32,
}

impl Answered {
    pub fn of(given: Answer) -> Answered
        ensures { result ≡ answered given }
    {
        Answered {
            number: given.number(),
            place: given.place(),
        }
    }
}

impl ReadAnswered {
    pub fn of(read: Answer, psn: Psn, first: bool) -> ReadAnswered
        ensures { result ≡ read_answered read psn.0 first }
    {
        ReadAnswered {
            number: read.number(),
            psn: psn.0,
            place: read.place(),
            first: first,
        }
    }
}

impl Marking {
    pub fn of(verdict: Verdict) -> Marking
        ensures { result ≡ marking verdict }
    {
        Marking {
            verdict: verdict.kind(),
            number: verdict.refusal(),
            psn: verdict.own_psn(),
            place: verdict.place(),
        }
    }
}

impl Converted {
    pub fn of(answer: Answer, found: u32) -> Converted
        ensures { result ≡ converted answer found }
    {
        Converted {
            number: answer.number(),
            value: found,
        }
    }
}
