// 13.7: the elements of the field of 256 elements.
#![tactic(auto)]

ghost use Rattle.std.specs.Prelude.{◌≡◌, ◌<◌, get_or};
ghost use Rattle.galois.specs.Tables.{product_by};
ghost use Rattle.galois.specs.Field.{sum, product, power, inverse};

use field_tables::{logs, powers};

// An element: the byte of its coefficients, that of α^7 in the highest bit.
#[derive(Clone, Copy)]
pub struct Gf(pub u8);

// The logarithm of a, in a table of logarithms. Zero has none, and its entry is not read.
fn log_in(logs: &[u8; 256], a: u8) -> usize
    requires { 0 < a }
    ensures { (result ≡ get_or logs.now a 0) × (result < 256) }
{
    usize::from(logs[usize::from(a)])
}

impl Gf {
    pub const ZERO: Gf = Gf(0);

    pub const ONE: Gf = Gf(1);

    pub const ALPHA: Gf = Gf(2);

    pub fn sum(self, other: Gf) -> Gf
        ensures { result.0 ≡ sum self.0 other.0 }
    {
        Gf(self.0 ^ other.0)
    }

    pub fn product(self, other: Gf) -> Gf
        ensures { result.0 ≡ product self.0 other.0 }
    {
        let powers = powers();
        let logs = logs();
        self.product_by(other, &powers, &logs)
    }

    // The product by tables that are lent: those of `powers` and `logs` give the field's.
    pub fn product_by(self, other: Gf, powers: &[u8; 256], logs: &[u8; 256]) -> Gf
        ensures { result.0 ≡ product_by powers.now logs.now self.0 other.0 }
    {
        if self.0 == 0 {
            return Gf::ZERO;
        }
        if other.0 == 0 {
            return Gf::ZERO;
        }
        let k = log_in(logs, self.0) + log_in(logs, other.0);
        if k < 255 {
            Gf(powers[k])
        } else {
            Gf(powers[k - 255])
        }
    }

    // To the power 0 any element is one. Zero to any other power is zero; of another element the exponent counts modulo 255.
    pub fn power(self, k: usize) -> Gf
        ensures { result.0 ≡ power self.0 k }
    {
        if k == 0 {
            return Gf::ONE;
        }
        if self.0 == 0 {
            return Gf::ZERO;
        }
        let powers = powers();
        let logs = logs();
        let e = log_in(&logs, self.0) * (k % 255) % 255;
        Gf(powers[e])
    }

    // The element that gives 1 with this one; zero for zero.
    pub fn inverse(self) -> Gf
        ensures { result.0 ≡ inverse self.0 }
    {
        if self.0 == 0 {
            return Gf::ZERO;
        }
        let powers = powers();
        let logs = logs();
        let e = 255 - log_in(&logs, self.0);
        Gf(powers[e])
    }
}
