// Test 13: the address fields of a BIS block. `steps` is for the crates of this repository.
#![tactic(auto)]

pub mod steps;

ghost use Rattle.std.specs.Prelude.{◌≡◌, ◌<◌, SomeIff};
ghost use Rattle.bis.specs.Reading.{wrong_field, first_wrong_field};

use bis::Block;

// Whether the primary address field of a unit is without its 4 roots.
fn is_wrong(block: &Block, unit: usize) -> bool
    requires { unit < 16 }
    ensures { result ≡ wrong_field block.now unit }
{
    !roots::has_roots(&steps::primary_in(block, unit), 4)
}

// The lowest address unit, 0 to 15, whose primary address field is without its 4 roots.
pub fn first_wrong_field(block: Block) -> Option<usize>
    ensures { SomeIff result (first_wrong_field block < 16) (first_wrong_field block) }
{
    (0..16).find(|&unit| is_wrong(&block, unit))
}
