// A frame sync written and judged: the constants of Figure 39.
ghost use Rattle.std.specs.Prelude.{◌≡◌, false, ◌+◌, ◌*◌, ◌<◌, ◌≤◌, length};
ghost use Rattle.bits.specs.Bits.{bits_of, number as number_of};
ghost use Rattle.modulation.specs.Bits.{bits};
ghost use Rattle.modulation.specs.Modulation.{last_bit};
ghost use Rattle.modulation.specs.Sync.{sync, sync_id};
ghost use Rattle.frame_sync.specs.Sync.{fs, group_of, sync_right};
ghost use Rattle.frame_sync.specs.steps.Written.{SyncWritten};

use crate::hash_at;

// The sync body with # ZERO, and six bits for the ID behind it.
const SYNC_BODY: u64 = 0b001_010_000_000_010_000_000_010_000_000;

// The sync IDs of FS0 to FS6.
const SYNC_IDS: [u8; 7] = [
    0b000_001, 0b010_010, 0b101_000, 0b100_001, 0b000_100, 0b001_001, 0b010_000,
];

// The 30 bits of a frame sync as a number.
pub fn sync_word(hash: bool, number: usize) -> u64
    requires { number < 7 }
    ensures { (result ≡ number_of (bits (sync hash (fs number)))) × (result < 1073741824) }
{
    let id = SYNC_IDS[number] as u64;
    if hash {
        return 536870912 + SYNC_BODY + id;
    }
    SYNC_BODY + id
}

// Group j of the ten of a word of 30 bits.
fn group_of(word: u64, j: usize) -> u8
    requires { j < 10 }
    ensures { result ≡ group_of word j }
{
    ((word >> (27 - 3 * j)) % 8) as u8
}

// The last bit of a frame sync.
pub fn sync_end(number: usize) -> bool
    requires { number < 7 }
    ensures { result ≡ last_bit false (sync_id (fs number)) }
{
    SYNC_IDS[number] % 2 == 1
}

// A frame sync, from bit `at` on.
pub fn write_sync(hash: bool, number: usize, image: &mut [u8], at: usize)
    requires { (number < 7) × (at + 30 < 18446744073709551616) }
    ensures { SyncWritten (fs number) hash image.old at image.new }
{
    let word = sync_word(hash, number);
    for j in 0..10 {
        bit_writer::write_three(image, at + 3 * j, group_of(word, j));
    }
}

// Whether the 30 bits from `at` on are the frame sync of a number; its # is not judged.
pub fn sync_right(image: &[u8], at: usize, number: usize) -> bool
    requires { (number < 7) × ((at + 30 ≤ 8 * length image.now) × (at + 30 < 18446744073709551616)) }
    ensures { result ≡ sync_right (fs number) (bits_of image.now) at }
{
    let hash = hash_at(image, at);
    let wanted = sync_word(hash, number);
    for j in 0..10 {
        let step = bit_reader::step_from(image, at + 3 * j);
        if step.value != group_of(wanted, j) {
            return false;
        }
    }
    true
}
