// The code words, and the block of them.
ghost use Rattle.std.specs.Prelude.{◌≡◌, ◌++◌, ◌<◌, length};
ghost use Rattle.answer.specs.declared.Answer.TheVariants.{Done};
ghost use Rattle.address.specs.Judged.{judged};
ghost use Rattle.remainders.specs.steps.Remainders.{AreRemainders};
ghost use Rattle.bis.specs.BisBlock.{code_word, bis_block};
ghost use Rattle.sizes.specs.Sizes.{side_size};

use access_block::steps::{access_column, address_fields};
use address::Psn;
use bis::{Block, Fields};
use remainders::Remainders;

fn joined(information: [u8; 30], parity: [u8; 32]) -> [u8; 62]
    ensures { result ≡ information ++ parity }
{
    let mut column = [0u8; 62];
    column[..30].copy_from_slice(&information);
    column[30..].copy_from_slice(&parity);
    column
}

// Code word c: information and parity.
fn code_word(table: &Remainders, fields: &Fields, side: &[u8], c: usize) -> [u8; 62]
    requires { AreRemainders table.now × ((length side.now ≡ side_size) × (c < 24)) }
    ensures { result ≡ code_word fields.now side.now c }
{
    let information = access_column(fields, side, c);
    let mut parity = [0u8; 32];
    code_word::steps::parity_32_by(table, &information, &mut parity);
    joined(information, parity)
}

// The BIS block of the cluster at an accepted PSN, with 592 bytes of side data.
pub fn block(table: &Remainders, psn: Psn, side: &[u8]) -> Block
    requires { AreRemainders table.now × ((length side.now ≡ side_size) × (judged psn.0 ≡ Done)) }
    ensures { result ≡ bis_block psn.0 side.now }
{
    let fields = address_fields(psn, side);
    let mut block = [[0u8; 62]; 24];
    for (c, column) in block.iter_mut().enumerate() {
        *column = code_word(table, &fields, side, c);
    }
    block
}
