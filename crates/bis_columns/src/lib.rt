// Test 12: the columns of a BIS block. `steps` is for the crates of this repository.
#![tactic(auto)]

pub mod steps;

ghost use Rattle.std.specs.Prelude.{◌<◌, SomeIff};
ghost use Rattle.bis.specs.Reading.{first_wrong_column};

use bis::Block;

// The lowest BIS column, 0 to 23, without its 32 roots.
pub fn first_wrong_column(block: Block) -> Option<usize>
    ensures { SomeIff result (first_wrong_column block < 24) (first_wrong_column block) }
{
    let mut table = remainders::steps::no_remainders();
    remainders::steps::fill_remainders(&mut table);
    steps::first_wrong_column_by(&table, block)
}
