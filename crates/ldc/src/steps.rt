// The place of a byte.
ghost use Rattle.std.specs.Prelude.{◌≡◌, ◌<◌};
ghost use Rattle.ldc.specs.Places.{ldc_place};

use crate::Place;

// Where byte `byte` of code word `word` stands.
pub fn locate(word: usize, byte: usize) -> Place
    requires { (word < 304) × (byte < 248) }
    ensures { result ≡ ldc_place word byte }
{
    Place {
        row: 2 * byte + word % 2,
        column: (word / 2 + 152 - 3 * byte % 152) % 152,
    }
}
