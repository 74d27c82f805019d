// The BIS block to its places, and back.
ghost use Rattle.std.specs.Prelude.{◌≡◌, ◌<◌, length};
ghost use Rattle.bis.specs.BisCluster.{bis_row, bis_column, bis_byte};
ghost use Rattle.cluster.specs.Multiplex.{bis_index, column_in, bis_in};
ghost use Rattle.bis_cluster.specs.steps.Written.{BisPut};
ghost use Rattle.sizes.specs.Sizes.{work_size, frame_count};

use bis::Block;
use std::array;

// A byte of the BIS cluster, out of the BIS block.
fn bis_byte(block: &Block, row: usize, column: usize) -> u8
    requires { (row < frame_count) × (column < 3) }
    ensures { result ≡ bis_byte block.now row column }
{
    let unit = row / 31;
    let in_unit = row % 31;
    let word = 3 * ((in_unit + 8 - unit % 8) % 8) + (column + 2 * in_unit) % 3;
    let byte = 2 * in_unit + unit / 8;
    block[word][byte]
}

// The BIS cluster, row by row.
pub fn put_bis(work: &mut [u8], block: &Block)
    requires { length work.old ≡ work_size }
    ensures { BisPut work.old block.now work.new }
{
    for row in 0..sizes::FRAMES {
        for column in 0..3usize {
            work[sizes::ROW * row + 39 * column + 38] = bis_byte(block, row, column);
        }
    }
}

// Where byte n of BIS code word c stands.
fn bis_index(n: usize, c: usize) -> usize
    requires { (n < 62) × (c < 24) }
    ensures { result ≡ bis_index (bis_row n c) (bis_column n c) }
{
    let in_unit = n / 2;
    let unit = (in_unit + 8 - c / 3) % 8 + 8 * (n % 2);
    let row = 31 * unit + in_unit;
    sizes::ROW * row + 39 * ((c + in_unit) % 3) + 38
}

// BIS code word c.
fn bis_column(work: &[u8], c: usize) -> [u8; 62]
    requires { (length work.now ≡ work_size) × (c < 24) }
    ensures { result ≡ column_in work.now c }
{
    array::from_fn(|n| work[bis_index(n, c)])
}

// The BIS block of a cluster.
pub fn bis_block(work: &[u8]) -> Block
    requires { length work.now ≡ work_size }
    ensures { result ≡ bis_in work.now }
{
    let mut block = [[0u8; 62]; 24];
    for (c, column) in block.iter_mut().enumerate() {
        *column = bis_column(work, c);
    }
    block
}
