// The parity of a column for programs in other languages: numbers and slices only.
#![tactic(auto)]

ghost use Rattle.std.specs.Prelude.{◌≡◌};
ghost use Rattle.column_parity.specs.Outcome.{outcome};
ghost use Rattle.column_parity.specs.Promise.{CompletesExactly};
ghost use Rattle.export_parity.specs.Exported.{completing};

use answer_numbers::Answered;

// Writes the 32 parity bytes of a column's data.
pub fn write_parity(message: &[u8], parity: &mut [u8]) -> Answered
    ensures parity_after { record { number = result.number; place = result.place; parity = parity.new } ≡ completing (outcome message.now parity.old) }
    ensures completes_exactly { CompletesExactly message.now parity.old result.number parity.new }
{
    let answer = column_parity::write_parity(message, parity);
    Answered::of(answer)
}
