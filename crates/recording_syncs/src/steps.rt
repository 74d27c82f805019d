// The syncs of a recording from bit `at` on.
ghost use Rattle.std.specs.Prelude.{◌≡◌, ◌<◌, ◌&&◌, drop, SomeIff};
ghost use Rattle.bits.specs.Bits.{bits_of};
ghost use Rattle.answer.specs.Answer.{is_done};
ghost use Rattle.recording.specs.Reading.{first_wrong_sync, first_hash};
ghost use Rattle.recording.specs.steps.Within.{Within};

use answer::Answer;

// Test 10: the lowest frame whose sync is wrong, if any; # is not judged.
pub fn first_wrong_sync(image: &[u8], at: usize) -> Option<usize>
    requires { Within image.now at }
    ensures { SomeIff result (first_wrong_sync (drop at (bits_of image.now)) < 497) (first_wrong_sync (drop at (bits_of image.now))) }
{
    for sync in 0..497usize {
        let number = frame_sync::sync_number(sync);
        if !frame_sync::steps::sync_right(image, at + sizes::FRAME * sync, number) {
            return Some(sync);
        }
    }
    None
}

// # of the sync of frame 0; false where an answer refuses.
pub fn first_hash(answer: Answer, image: &[u8], at: usize) -> bool
    ensures { result ≡ (is_done answer && first_hash (drop at (bits_of image.now))) }
{
    if answer.is_done() {
        return frame_sync::hash_at(image, at);
    }
    false
}
