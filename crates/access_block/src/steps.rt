// Address fields, and the columns of the access block.
ghost use Rattle.std.specs.Prelude.{◌≡◌, ◌+◌, ◌<◌, length};
ghost use Rattle.answer.specs.declared.Answer.TheVariants.{Done};
ghost use Rattle.address.specs.Judged.{judged};
ghost use Rattle.bis.specs.AccessBlock.{field_of, address_fields, access_byte};
ghost use Rattle.bis.specs.BisBlock.{access_column};
ghost use Rattle.sizes.specs.Sizes.{side_size};

use address::Psn;
use address_field::address_field;
use bis::Fields;
use std::array;

// The address field of unit y.
fn field_of(psn: Psn, side: &[u8], y: usize) -> [u8; 9]
    requires { ((length side.now ≡ side_size) × (judged psn.0 ≡ Done)) × (y < 16) }
    ensures { result ≡ field_of psn.0 side.now y }
{
    address_field(psn.aun(y as u32).aun, side[y])
}

// The sixteen address fields of a cluster.
pub fn address_fields(psn: Psn, side: &[u8]) -> Fields
    requires { (length side.now ≡ side_size) × (judged psn.0 ≡ Done) }
    ensures { result ≡ address_fields psn.0 side.now }
{
    let mut fields = [[0u8; 9]; 16];
    for (y, field) in fields.iter_mut().enumerate() {
        *field = field_of(psn, side, y);
    }
    fields
}

// The byte in a row and a column of the access block.
fn access_byte(fields: &Fields, side: &[u8], row: usize, c: usize) -> u8
    requires { (length side.now ≡ side_size) × (row < 30) × (c < 24) }
    ensures { result ≡ access_byte fields.now side.now row c }
{
    if row < 6 {
        let y = 8 * (row % 2) + (row / 2 + 16 - c / 3) % 8;
        let x = 3 * (row / 2) + (c % 3 + row / 2) % 3;
        return fields[y][x];
    }
    side[16 + (24 * c + (row - 6))]
}

// The 30 information bytes of code word c.
pub fn access_column(fields: &Fields, side: &[u8], c: usize) -> [u8; 30]
    requires { (length side.now ≡ side_size) × (c < 24) }
    ensures { result ≡ access_column fields.now side.now c }
{
    array::from_fn(|row| access_byte(fields, side, row, c))
}
