// 13.9.2.2: the parity of primary address fields, byte by byte. `steps`, for the crates of this repository, has the generator of 32 roots (13.7,
// 13.12) too, and a byte into the register, of which the table of remainders is made.
#![tactic(auto)]

pub mod steps;

ghost use Rattle.std.specs.Prelude.{◌≡◌, ◌<◌, length, drop};
ghost use Rattle.laws.specs.Tabulate.{tabulate};
ghost use Rattle.column.specs.Column.{remainder, generator, parity};

// The remainder of the message's bytes, by a register that starts with zeros.
fn divide(generator: &[u8], message: &[u8], register: &mut [u8])
    requires { (length generator.now ≡ length register.old) × (0 < length register.old) }
    ensures { register.new ≡ remainder generator.now (tabulate (length register.old) (λ _. 0)) message.now }
{
    let powers = field_tables::powers();
    let logs = field_tables::logs();
    slices::clear(register);
    for &byte in message {
        steps::push(&powers, &logs, generator, register, byte);
    }
}

// The generator with 4 roots (formula 33), without its first coefficient.
const GENERATOR_4: [u8; 4] = [15, 54, 120, 64];

fn generator_4() -> [u8; 4]
    ensures { (length result ≡ 4) × (result ≡ drop 1 (generator 4)) }
{
    GENERATOR_4
}

// The parity of a primary address field.
pub fn parity_4(message: &[u8], out: &mut [u8; 4])
    ensures { out.new ≡ parity 4 message.now }
{
    let generator = generator_4();
    divide(&generator, message, out);
}
