// What weaving and unweaving share.
ghost use Rattle.modulation.specs.steps.Words.{Words};

// 29 words, all 0.
pub fn no_words() -> [u64; 29]
    ensures { Words result }
{
    [0u64; 29]
}
