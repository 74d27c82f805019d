// An address field in the block.
ghost use Rattle.std.specs.Prelude.{◌≡◌, ◌<◌};
ghost use Rattle.bis.specs.Reading.{field_in, primary_in};

use address_field::steps::partly_inverted;
use bis::Block;
use std::array;

// Address field y as it stands in the block.
fn field_in(block: &Block, y: usize) -> [u8; 9]
    requires { y < 16 }
    ensures { result ≡ field_in block.now y }
{
    array::from_fn(|x| {
        let row = 2 * (x / 3) + y / 8;
        let c = 3 * ((x / 3 + 16 - y) % 8) + (x - x / 3) % 3;
        block[c][row]
    })
}

// The same with the inversion undone.
pub fn primary_in(block: &Block, y: usize) -> [u8; 9]
    requires { y < 16 }
    ensures { result ≡ primary_in block.now y }
{
    partly_inverted(field_in(block, y))
}
