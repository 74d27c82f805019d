// The generators, and a byte into the register. A constant is copied where it is read, so that a loop takes it once.
ghost use Rattle.std.specs.Prelude.{◌≡◌, length, drop, ◌<◌};
ghost use Rattle.column.specs.Column.{generator, pushed};
ghost use Rattle.galois.specs.Tables.{AreTables};

use field::Gf;

// The generator with 32 roots (formulas 30, 37), without its first coefficient, which is 1.
const GENERATOR_32: [u8; 32] = [
    116, 64, 52, 174, 54, 126, 16, 194, 162, 33, 33, 157, 176, 197, 225, 12, 59, 55, 253, 228, 148,
    47, 179, 185, 24, 138, 253, 20, 142, 55, 172, 88,
];

pub fn generator_32() -> [u8; 32]
    ensures { (length result ≡ 32) × (result ≡ drop 1 (generator 32)) }
{
    GENERATOR_32
}

// One byte into the register.
pub fn push(powers: &[u8; 256], logs: &[u8; 256], generator: &[u8], register: &mut [u8], byte: u8)
    requires are_tables { AreTables powers.now logs.now }
    requires generator_len { (length generator.now ≡ length register.old) × (0 < length register.old) }
    ensures { register.new ≡ pushed generator.now register.old byte }
{
    let f = Gf(byte).sum(Gf(register[0]));
    let last = register.len() - 1;
    for j in 0..last {
        let next = Gf(register[j + 1]).sum(f.product_by(Gf(generator[j]), powers, logs));
        register[j] = next.0;
    }
    let end = f.product_by(Gf(generator[last]), powers, logs);
    register[last] = end.0;
}
