// Slices of plain numbers, cleared.
#![tactic(auto)]

ghost use Rattle.std.specs.Prelude.{◌≡◌, length};
ghost use Rattle.laws.specs.Tabulate.{tabulate};

// Zeros in every place.
pub fn clear(bytes: &mut [u8])
    ensures { bytes.new ≡ tabulate (length bytes.old) (λ _. 0) }
{
    for i in 0..bytes.len() {
        bytes[i] = 0;
    }
}
