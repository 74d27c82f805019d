// Gap lengths counted bit by bit.
ghost use Rattle.std.specs.Prelude.{◌≡◌, ◌*◌, ◌<◌, ◌≤◌, length, take};
ghost use Rattle.bits.specs.Bits.{bits_of};
ghost use Rattle.gaps.specs.Gaps.{gap_counts};
ghost use Rattle.gaps.specs.steps.Counted.{BitCounted, Counts};

// A bit more, behind `zeros` zeros. A gap of 1 to 8 zeros that it ends is counted; answers how many zeros the next gap has.
fn count_bit(counts: &mut [u32], zeros: usize, bit: u8) -> usize
    requires { Counts 4294967294 counts.old × (zeros < 18446744073709551615) }
    ensures { BitCounted bit zeros counts.old counts.new result }
{
    if bit == 0 {
        return zeros + 1;
    }
    if zeros == 0 {
        return 0;
    }
    if 8 < zeros {
        return 0;
    }
    counts[zeros - 1] += 1;
    0
}

// How often the gap lengths 1 to 8 occur in the first n bits of a slice. In front of the first one `zeros` is above 8: it ends no gap.
pub fn gap_counts(bytes: &[u8], n: usize) -> [u32; 8]
    requires { (n ≤ 8 * length bytes.now) × (n < 4294967296) }
    ensures { result ≡ gap_counts (take n (bits_of bytes.now)) }
{
    let mut counts = [0u32; 8];
    let mut zeros = 9;
    for i in 0..n {
        zeros = count_bit(&mut counts, zeros, bits::read_bit(bytes, i));
    }
    counts
}
