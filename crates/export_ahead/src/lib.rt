// How far ahead the modulator reads, for programs in other languages: numbers and slices only.
#![tactic(auto)]

ghost use Rattle.std.specs.Prelude.{Bool, ◌≡◌};
ghost use Rattle.look_ahead.specs.Outcome.{outcome};
ghost use Rattle.export_ahead.specs.Exported.{ahead_seen};

// The documents' number and place, and the most bits that any word of the frame needs, 0 under a refusal.
#[repr(C)]
#[derive(Clone, Copy)]
pub struct AheadNumbers {
    pub number: u32,
    pub place: usize,
    pub bits: u32,
}

// The most bits that any word of a frame needs; the same for both values of the bit before the frame.
pub fn most_needed(row: &[u8], dc: u32) -> AheadNumbers
    ensures { (b : Bool) → result ≡ ahead_seen (outcome b row.now dc) }
{
    let ahead = look_ahead::most_needed(row, dc);
    let answer = ahead.answer;
    AheadNumbers {
        number: answer.number(),
        place: answer.place(),
        bits: ahead.bits,
    }
}
