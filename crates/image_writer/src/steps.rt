// An input that passed the tests, written.
ghost use Rattle.std.specs.Prelude.{◌≡◌, length};
ghost use Rattle.answer.specs.declared.Answer.TheVariants.{Done};
ghost use Rattle.lengths.specs.Lengths.{RightLengths};
ghost use Rattle.address.specs.Judged.{judged};
ghost use Rattle.image_writer.specs.steps.Written.{ImageWritten, Filled};
ghost use Rattle.sizes.specs.Sizes.{work_size, image_size, frame_count};

use address::Psn;
use frame::State;

// The frames, the sync that follows, which is FS0, and two zero bits. # of the first sync is given.
fn put_image(work: &[u8], dc: &[u32], first: bool, image: &mut [u8])
    requires { ((length work.now ≡ work_size) × (length dc.now ≡ frame_count)) × (length image.old ≡ image_size) }
    ensures { ImageWritten first work.now dc.now image.new }
{
    let state = recording_writer::steps::put_frames(work, dc, State { hash: first }, image, 0);
    frame_sync::steps::write_sync(state.hash, 0, image, sizes::RECORDING);
    bit_writer::write_bit(image, 958302, 0);
    bit_writer::write_bit(image, 958303, 0);
}

// The ECC cluster in work and the image of an input that passed the tests.
pub fn write(
    user: &[u8],
    psn: Psn,
    side: &[u8],
    dc: &[u32],
    first: bool,
    image: &mut [u8],
    work: &mut [u8],
)
    requires { RightLengths (length user.now) (length side.now) (length dc.now) (length work.old) × ((length image.old ≡ image_size) × (judged psn.0 ≡ Done)) }
    ensures { Filled (record { user = user.now; psn = psn.0; side = side.now; dc = dc.now; first = first }) image.new work.new }
{
    cluster_writer::steps::encode(user, psn, side, work);
    put_image(work, dc, first, image);
}
