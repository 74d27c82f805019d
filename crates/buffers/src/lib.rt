// Buffers of zeros for the parts of a cluster: user bytes, side data, dc words (also as bytes), the image and the ECC cluster.
#![tactic(auto)]

ghost use Rattle.std.specs.Prelude.{◌≡◌, length};
ghost use Rattle.laws.specs.Zeros.{zeros};
ghost use Rattle.sizes.specs.Sizes.{frame_count};

pub fn zeros<const N: usize>() -> [u8; N]
    ensures { (length result ≡ N) × (result ≡ zeros N) }
{
    [0; N]
}

pub fn dc_words() -> [u32; sizes::FRAMES]
    ensures { (length result ≡ frame_count) × (result ≡ zeros frame_count) }
{
    [0; sizes::FRAMES]
}
