// The side data of a BIS block.
#![tactic(auto)]

ghost use Rattle.std.specs.Prelude.{◌≡◌, ◌<◌};
ghost use Rattle.bis.specs.Reading.{side_byte_in, side_out};
ghost use Rattle.sizes.specs.Sizes.{side_size};

use bis::Block;

// Byte k of the side data.
fn side_byte(block: &Block, k: usize) -> u8
    requires { k < side_size }
    ensures { result ≡ side_byte_in block.now k }
{
    if k < 16 {
        let primary = bis_fields::steps::primary_in(block, k);
        return primary[4];
    }
    block[(k - 16) / 24][6 + (k - 16) % 24]
}

// The flag bytes and the user control data; a slice that is not 592 long is left as it was.
pub fn side_data(block: Block, side: &mut [u8])
    ensures { side.new ≡ side_out block side.old }
{
    if side.len() != sizes::SIDE {
        return;
    }
    for (k, byte) in side.iter_mut().enumerate() {
        *byte = side_byte(&block, k);
    }
}
