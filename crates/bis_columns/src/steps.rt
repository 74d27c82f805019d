// The test by lent remainders.
ghost use Rattle.std.specs.Prelude.{◌≡◌, ◌<◌, SomeIff};
ghost use Rattle.column.specs.Column.{has_roots};
ghost use Rattle.remainders.specs.steps.Remainders.{AreRemainders};
ghost use Rattle.bis.specs.Reading.{first_wrong_column};

use bis::Block;
use remainders::Remainders;

// Whether a BIS column has its 32 roots.
fn is_code_word(table: &Remainders, column: &[u8; 62]) -> bool
    requires { AreRemainders table.now }
    ensures { result ≡ has_roots 32 column.now }
{
    code_word::steps::is_code_word(table, column)
}

// The lowest BIS column, 0 to 23, without its 32 roots, by the lent remainders.
pub fn first_wrong_column_by(table: &Remainders, block: Block) -> Option<usize>
    requires { AreRemainders table.now }
    ensures { SomeIff result (first_wrong_column block < 24) (first_wrong_column block) }
{
    block.iter().position(|column| !is_code_word(table, column))
}
