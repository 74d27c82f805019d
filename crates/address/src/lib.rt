// The three numberings of clause 13.9.2.3 and 17.2. A place that takes one is never handed another.
#![tactic(auto)]

ghost use Rattle.std.specs.Prelude.{◌≡◌};
ghost use Rattle.address.specs.Zones.{within, in_data_zone};
ghost use Rattle.address.specs.Judged.{judged, if_done};
ghost use Rattle.address.specs.Conversions.{with_psn, psn_to_paa, paa_to_psn, psn_to_aun, aun_to_psn};

use answer::Answer;

// Physical sector number of a cluster's first sector.
#[derive(Clone, Copy)]
pub struct Psn(pub u32);

// Address unit number.
#[derive(Clone, Copy)]
pub struct Aun(pub u32);

// Physical ADIP address of a cluster's first word.
#[derive(Clone, Copy)]
pub struct Paa(pub u32);

// A PSN, 0 where the input is refused.
#[derive(Clone, Copy)]
pub struct PsnAnswer {
    pub answer: Answer,
    pub psn: Psn,
}

// An AUN, 0 where the input is refused.
#[derive(Clone, Copy)]
pub struct AunAnswer {
    pub answer: Answer,
    pub aun: Aun,
}

// A PAA, 0 where the input is refused.
#[derive(Clone, Copy)]
pub struct PaaAnswer {
    pub answer: Answer,
    pub paa: Paa,
}

fn within(first: u32, last: u32, psn: u32) -> bool
    ensures { result ≡ within (record { first = first; last = last }) psn }
{
    if psn < first {
        return false;
    }
    psn <= last
}

fn in_data_zone(psn: u32) -> bool
    ensures { result ≡ in_data_zone psn }
{
    if within(0x0010_0000, 0x0108_9BFF, psn) {
        return true;
    }
    if within(0x02F7_6400, 0x03EF_FFFF, psn) {
        return true;
    }
    within(0x0410_0000, 0x0508_9BFF, psn)
}

fn if_done(answer: Answer, x: u32) -> u32
    ensures { result ≡ if_done answer x }
{
    if answer.is_done() {
        return x;
    }
    0
}

impl Psn {
    // Whether a cluster may start at this sector: 0, 6 or 7.
    pub fn judge(self) -> Answer
        ensures { result ≡ judged self.0 }
    {
        let psn = self.0;
        if psn % 32 != 0 {
            return Answer::NoMultiple(0);
        }
        if in_data_zone(psn) {
            return Answer::Done;
        }
        Answer::NoZone(0)
    }

    // The PAA of the cluster's first word.
    pub fn paa(self) -> PaaAnswer
        ensures { result ≡ psn_to_paa self.0 }
    {
        let answer = self.judge();
        let paa = Paa(if_done(answer, self.0 / 8));
        PaaAnswer { answer, paa }
    }

    // The AUN of an address unit, 0 to 15, of the cluster.
    pub fn aun(self, unit: u32) -> AunAnswer
        ensures { result ≡ psn_to_aun self.0 unit }
    {
        let answer = self.judge();
        if 15 < unit {
            return AunAnswer {
                answer,
                aun: Aun(0),
            };
        }
        let aun = Aun(if_done(answer, self.0 / 32 * 32 + unit * 2));
        AunAnswer { answer, aun }
    }

    // The PSN itself with its answer.
    fn own(self) -> PsnAnswer
        ensures { result ≡ with_psn (judged self.0) self.0 }
    {
        let answer = self.judge();
        let psn = Psn(if_done(answer, self.0));
        PsnAnswer { answer, psn }
    }
}

impl Paa {
    // The PSN of the cluster whose first word has this PAA.
    pub fn psn(self) -> PsnAnswer
        ensures { result ≡ paa_to_psn self.0 }
    {
        let paa = self.0;
        if paa % 4 != 0 {
            return PsnAnswer {
                answer: Answer::NoMultiple(0),
                psn: Psn(0),
            };
        }
        if 0x1FFF_FFFF < paa {
            return PsnAnswer {
                answer: Answer::NoZone(0),
                psn: Psn(0),
            };
        }
        Psn(8 * paa).own()
    }
}

impl Aun {
    // The PSN of the cluster that holds the address unit.
    pub fn psn(self) -> PsnAnswer
        ensures { result ≡ aun_to_psn self.0 }
    {
        let aun = self.0;
        if aun % 2 != 0 {
            return PsnAnswer {
                answer: Answer::NoMultiple(0),
                psn: Psn(0),
            };
        }
        Psn(aun / 32 * 32).own()
    }
}
