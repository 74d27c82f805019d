// Frame syncs (13.17.4): the sync number of each recording frame, and # of a sync. `steps` writes and judges a sync, for the crates of this repository.
#![tactic(auto)]

pub mod steps;

ghost use Rattle.std.specs.Prelude.{◌≡◌, ◌<◌};
ghost use Rattle.bits.specs.Bits.{bits_of};
ghost use Rattle.modulation.specs.Sync.{sync_number};
ghost use Rattle.frame_sync.specs.Sync.{fs_number, hash_at};

// The sync numbers of recording frames 0 to 30 of an address unit.
const SYNC_NUMBERS: [usize; 31] = [
    0, 1, 2, 3, 3, 1, 4, 1, 5, 5, 4, 3, 4, 6, 6, 3, 5, 3, 2, 2, 5, 6, 5, 1, 1, 6, 2, 6, 4, 4, 2,
];

// The sync number of recording frame n of a physical cluster.
pub fn sync_number(n: usize) -> usize
    ensures { (result ≡ fs_number (sync_number n)) × (result < 7) }
{
    SYNC_NUMBERS[n % 31]
}

// # of the frame sync at bit `at`.
pub fn hash_at(image: &[u8], at: usize) -> bool
    ensures { result ≡ hash_at (bits_of image.now) at }
{
    bits::read_bit(image, at) == 1
}
