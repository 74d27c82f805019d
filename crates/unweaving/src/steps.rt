// A row and a dc word out of words of 46 bits.
ghost use Rattle.std.specs.Prelude.{◌≡◌, ◌<◌, length};
ghost use Rattle.frame_bits.specs.FrameBits.{row_from, dc_from};
ghost use Rattle.frame_bits.specs.steps.Slices.{FiveBytes};
ghost use Rattle.modulation.specs.steps.Words.{bits_in, Words};
ghost use Rattle.sizes.specs.Sizes.{row_size};

// The five bytes of a frame's row at 5 m, as a number: 40 of the 45 data bits from 40 m on, out of two words. 35184372088832 is 2^45.
fn five_in(words: &[u64; 29], m: usize) -> u64
    requires { Words words.now × (m < 31) }
    ensures { FiveBytes (row_from (bits_in words.now)) m result }
{
    let p = 40 * m + 20;
    let i = p / 45;
    let off = p % 45;
    (((words[i] / 2) << off) % 35184372088832 + ((words[i + 1] / 2) >> (45 - off))) / 32
}

// The row of a frame.
pub fn row_in(words: &[u64; 29], row: &mut [u8])
    requires { Words words.now × (length row.old ≡ row_size) }
    ensures { row.new ≡ row_from (bits_in words.now) }
{
    for m in 0..31usize {
        let five = five_in(words, m);
        row[5 * m] = (five / 4294967296 % 256) as u8;
        row[5 * m + 1] = (five / 16777216 % 256) as u8;
        row[5 * m + 2] = (five / 65536 % 256) as u8;
        row[5 * m + 3] = (five / 256 % 256) as u8;
        row[5 * m + 4] = (five % 256) as u8;
    }
}

// The dc word of a frame.
pub fn dc_in(words: &[u64; 29]) -> u32
    requires { Words words.now }
    ensures { result ≡ dc_from (bits_in words.now) }
{
    let mut dc = 0;
    for &word in &words[..28] {
        dc = 2 * dc + (word % 2) as u32;
    }
    dc
}
