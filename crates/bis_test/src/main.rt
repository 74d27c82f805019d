// BIS blocks against those of an independent encoder, and what is read in blocks that are wrong.
#![tactic(auto)]

ghost use Rattle.std.specs.Prelude.{◌<◌};

use address::{Aun, Psn};
use bis::{Block, PsnFound};
use test_bytes::{draws, hash, lent};
use test_support::lines;

// The side data of the input with this seed: the bytes after 1 + 65,536 steps.
fn side_of(seed: u64) -> [u8; 592] {
    let mut user = lent::user();
    let state = draws::draw(draws::next(seed), &mut user);
    let mut side = lent::side();
    draws::draw(state, &mut side);
    side
}

// The access block, column after column.
fn access_hash(block: Block) -> u64 {
    let mut h = hash::NONE;
    for column in &block {
        h = hash::behind(h, &column[..30]);
    }
    h
}

// Where byte n of code word c stands in the BIS cluster, row after row: formulas 39 to 42.
fn place(n: usize, c: usize) -> usize
    requires { (n < 62) × (c < 24) }
    ensures { result < 1488 }
{
    let u = (n / 2 + 8 - c / 3) % 8 + 8 * (n % 2);
    let r = n / 2;
    let e = (c + n / 2) % 3;
    (u * 31 + r) * 3 + e
}

fn cluster_hash(block: Block) -> u64 {
    let mut cluster = [0u8; 1488];
    for (c, column) in block.iter().enumerate() {
        for (n, &byte) in column.iter().enumerate() {
            cluster[place(n, c)] = byte;
        }
    }
    hash::of(&cluster)
}

fn psn_line(found: PsnFound) {
    match found {
        PsnFound::Found(psn) => {
            lines::hex_line(b"PSN: ", psn.0 as u64, 8);
        }
        PsnFound::NotFound => {
            io::write_all(1, b"PSN: none\n");
        }
    }
}

fn side_line(block: Block) {
    let mut side = [0u8; 592];
    side_reader::side_data(block, &mut side);
    lines::hex_line(b"side data: ", hash::of(&side), 16);
}

fn print_reading(block: Block) {
    let column = bis_columns::first_wrong_column(block).unwrap_or(24);
    lines::number_line(b"first wrong column: ", column as u64);
    let unit = bis_fields::first_wrong_field(block).unwrap_or(16);
    lines::number_line(b"first wrong address field: ", unit as u64);
    psn_line(bis_psn::psn_in(block));
    side_line(block);
}

// The block of a cluster; zeros where the PSN is refused.
fn block_of(psn: Psn, side: [u8; 592]) -> Block {
    let mut table = remainders::steps::no_remainders();
    remainders::steps::fill_remainders(&mut table);
    if psn.judge().is_done() {
        return bis_writer::steps::block(&table, psn, &side);
    }
    [[0u8; 62]; 24]
}

// The address field of unit y, below 16.
fn field_line(text: &[u8], psn: Psn, side: [u8; 592], y: u32) {
    let unit = psn.aun(y % 16);
    let field = address_field::address_field(unit.aun, side[(y % 16) as usize]);
    lines::bytes_line(text, &field);
}

fn show(text: &[u8], psn: Psn, side: [u8; 592]) {
    io::write_all(1, text);
    field_line(b"address field 0: ", psn, side, 0);
    field_line(b"address field 15: ", psn, side, 15);
    let block = block_of(psn, side);
    lines::hex_line(b"access block: ", access_hash(block), 16);
    lines::hex_line(b"BIS cluster: ", cluster_hash(block), 16);
    print_reading(block);
}

// The column with byte n, below 62, set.
fn with_byte(column: [u8; 62], n: usize, byte: u8) -> [u8; 62] {
    let mut out = column;
    out[n % 62] = byte;
    out
}

fn with_parity(column: [u8; 62], parity: [u8; 32]) -> [u8; 62] {
    let mut out = column;
    out[30..].copy_from_slice(&parity);
    out
}

// The column with the parity of its first 30 bytes.
fn recoded(column: [u8; 62]) -> [u8; 62] {
    let mut parity = [0u8; 32];
    column_parity::write_parity(&column[..30], &mut parity);
    with_parity(column, parity)
}

// The block with another address field of unit y, below 16, in columns that have their roots.
fn with_field(block: Block, y: usize, field: [u8; 9]) -> Block {
    let unit = y % 16;
    let mut out = block;
    for (x, &byte) in field.iter().enumerate() {
        let row = 2 * (x / 3) + unit / 8;
        let c = 3 * ((x / 3 + 16 - unit) % 8) + (x - x / 3) % 3;
        out[c] = recoded(with_byte(out[c], row, byte));
    }
    out
}

// The block with another AUN of unit y.
fn with_aun(block: Block, y: usize, aun: u32) -> Block {
    with_field(block, y, address_field::address_field(Aun(aun), 0))
}

// The block with the AUNs of a PSN.
fn with_auns(block: Block, psn: u32) -> Block {
    let mut out = block;
    for unit in 0..16u32 {
        let next = with_aun(out, unit as usize, psn / 32 * 32 + 2 * unit);
        out = next;
    }
    out
}

// The last byte of column 23 changed.
fn with_last(block: Block) -> Block {
    let mut out = block;
    out[23] = with_byte(block[23], 61, block[23][61] ^ 0xff);
    out
}

// The flag byte of address unit 15 changed.
fn with_flag(block: Block) -> Block {
    let mut field = address_field::address_field(Aun(0x0010_001e), 0);
    field[4] = 1;
    with_field(block, 15, field)
}

fn show_wrong(text: &[u8], block: Block) {
    io::write_all(1, text);
    print_reading(block);
}

fn wrong_bytes(block: Block) {
    show_wrong(b"the last byte of column 23 wrong\n", with_last(block));
    let text = b"the flag byte of address unit 15 without its parity\n";
    show_wrong(text, with_flag(block));
}

fn other_auns(block: Block) {
    let text = b"address unit 15 with the AUN of the next cluster's\n";
    show_wrong(text, with_aun(block, 15, 0x0010_003e));
    let text = b"address unit 3 with AU0 ONE\n";
    show_wrong(text, with_aun(block, 3, 0x0010_0007));
    let text = b"the AUNs of PSN 000FFFE0\n";
    show_wrong(text, with_auns(block, 0x000f_ffe0));
    let text = b"the AUNs of PSN 03EFFFE0\n";
    show_wrong(text, with_auns(block, 0x03ef_ffe0));
}

fn main() {
    let none = [0u8; 592];
    show(b"PSN 00100000, no side data\n", Psn(0x0010_0000), none);
    show(b"PSN 04C5DBC0, input 0\n", Psn(0x04c5_dbc0), side_of(0));
    show(b"PSN 05071980, input 1\n", Psn(0x0507_1980), side_of(1));
    let block = block_of(Psn(0x0010_0000), none);
    wrong_bytes(block);
    other_auns(block);
}
