// One byte into the register, by the rows with no zeros behind a byte.
ghost use Rattle.std.specs.Prelude.{◌≡◌, [], ◌∷◌, ◌+◌, ◌*◌, take};
ghost use Rattle.laws.specs.Tabulate.{tabulate};
ghost use Rattle.galois.specs.Field.{sum};
ghost use Rattle.column.specs.Column.{remainder};
ghost use Rattle.register.specs.steps.Register.{divisor, FirstTable, Padded};

use crate::{Register, Remainders};
use field::Gf;

pub fn zeros() -> Register
    ensures { result ≡ tabulate 40 (λ _. 0) }
{
    [0u8; 40]
}

pub fn plus(a: u8, b: u8) -> u8
    ensures { result ≡ sum a b }
{
    let s = Gf(a).sum(Gf(b));
    s.0
}

// The register behind one byte more: the rows with no zeros behind the byte do.
pub fn pushed_byte(table: &Remainders, was: Register, byte: u8) -> Register
    requires { FirstTable table.now × Padded was }
    ensures { Padded result × (take 32 result ≡ remainder divisor (take 32 was) (byte ∷ [])) }
{
    let out = usize::from(plus(byte, was[0]));
    let mut next = zeros();
    for j in 0..32 {
        next[j] = plus(was[j + 1], table[32 * out + j]);
    }
    next
}
