// Words of 46 bits, and sixteen bits of them at a time.
ghost use Rattle.std.specs.Prelude.{◌≡◌, ◌+◌, ◌*◌, ◌-◌, ◌/◌, ◌%◌, ◌^◌, ◌<◌, length, get_or};
ghost use Rattle.bits.specs.Bits.{bits_of};
ghost use Rattle.modulation.specs.Bits.{pairs};
ghost use Rattle.frame_bits.specs.FrameBits.{frame_bits};
ghost use Rattle.frame_bits.specs.steps.Words.{Word, GroupData, SixteenFrom, SixteenOn, bit_of, LastTwo};
ghost use Rattle.modulation.specs.steps.Words.{bits_in, Words};
ghost use Rattle.sizes.specs.Sizes.{row_size};

// Four bytes of a row, from byte i on.
fn four_bytes(row: &[u8], i: usize) -> u64
    requires { i + 3 < length row.now }
    ensures { Word 32 (λ j. get_or (bits_of row.now) j 0) (8 * i) result }
{
    u64::from(row[i]) * 16777216
        + u64::from(row[i + 1]) * 65536
        + u64::from(row[i + 2]) * 256
        + u64::from(row[i + 3])
}

// Eight.
fn eight_bytes(row: &[u8], i: usize) -> u64
    requires { i + 7 < length row.now }
    ensures { Word 64 (λ j. get_or (bits_of row.now) j 0) (8 * i) result }
{
    four_bytes(row, i) * 4294967296 + four_bytes(row, i + 4)
}

// The data bits of group i, which end at bit 45 i + 25 of the row. 35184372088832 is 2^45.
fn group_data(row: &[u8], i: usize) -> u64
    requires { (length row.now ≡ row_size) × (i < 28) }
    ensures { GroupData row.now i result }
{
    if i == 0 {
        return four_bytes(row, 0) / 128;
    }
    let end = 45 * i + 25;
    let past = (end + 7) / 8;
    (eight_bytes(row, past - 8) >> (8 * past - end)) % 35184372088832
}

// Bit i of the dc word.
fn dc_bit(dc: u32, i: usize) -> u64
    requires { i < 32 }
    ensures { (result ≡ dc / 2 ^ i % 2) × (result < 2) }
{
    ((dc >> i) % 2) as u64
}

// The words of the frame with a row's bytes and a dc word.
pub fn frame_words(row: &[u8], dc: u32, words: &mut [u64; 29])
    requires { (length row.now ≡ row_size) × Words words.old }
    ensures { Words words.new × (bits_in words.new ≡ frame_bits row.now dc) }
{
    for i in 0..28 {
        words[i] = group_data(row, i) * 2 + dc_bit(dc, 27 - i);
    }
}

// Sixteen bits of the frame, from a place on: 64 i + t for bit t of word i, had without a division. 70368744177664 is 2^46, and 1073741824
// is 2^30.
pub fn sixteen_at(words: &[u64; 29], place: usize) -> usize
    requires { Words words.now × SixteenFrom place }
    ensures { Word 16 (λ j. get_or (bits_in words.now) j 0) (bit_of place - 20) result }
{
    let i = place / 64;
    let off = place % 64;
    (((words[i] << off) % 70368744177664 + (words[i + 1] >> (46 - off))) / 1073741824) as usize
}

// The place sixteen bits on.
pub fn sixteen_on(place: usize) -> usize
    requires { SixteenFrom place }
    ensures { SixteenOn place result }
{
    if place % 64 < 30 {
        return place + 16;
    }
    place + 34
}

// The last four bits of the frame.
pub fn last_two(words: &[u64; 29]) -> usize
    requires { Words words.now }
    ensures { LastTwo (pairs (bits_in words.now)) result }
{
    (words[27] % 16) as usize
}
