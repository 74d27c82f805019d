// The roots of columns, one by one.
#![tactic(auto)]

ghost use Rattle.std.specs.Prelude.{◌≡◌};
ghost use Rattle.galois.specs.Tables.{AreTables};
ghost use Rattle.column.specs.Column.{value, has_roots};

use field::Gf;

// The value of the column at x.
fn value_at(powers: &[u8; 256], logs: &[u8; 256], column: &[u8], x: Gf) -> Gf
    requires { AreTables powers.now logs.now }
    ensures { result.0 ≡ value column.now x.0 }
{
    let mut v = Gf::ZERO;
    for &byte in column {
        v = v.product_by(x, powers, logs).sum(Gf(byte));
    }
    v
}

// Whether the column has the roots α^0 to α^(count - 1): from count bytes on, whether it is a multiple of the generator (column, proofs/Multiple:
// right-multiple, multiple-right).
pub fn has_roots(column: &[u8], count: u8) -> bool
    ensures { result ≡ has_roots count column.now }
{
    let powers = field_tables::powers();
    let logs = field_tables::logs();
    for i in 0..count {
        let v = value_at(&powers, &logs, column, Gf::ALPHA.power(usize::from(i)));
        if v.0 != 0 {
            return false;
        }
    }
    true
}
