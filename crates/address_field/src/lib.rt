// 13.9.2.2: address fields.
#![tactic(auto)]

pub mod steps;

ghost use Rattle.std.specs.Prelude.{◌≡◌};
ghost use Rattle.bis.specs.AddressField.{reordered, information, primary_field, address_field};

use address::Aun;
use big_endian::word_bytes;
use steps::partly_inverted;

// PAF0 from the AUN's high byte.
fn reordered(high: u8) -> u8
    ensures { result ≡ reordered high }
{
    high / 16 * 16 + high % 2 * 8 + high / 2 % 8
}

// PAF0 to PAF4.
fn information(aun: Aun, flag: u8) -> [u8; 5]
    ensures { result ≡ information aun.0 flag }
{
    let [high, b, c, low] = word_bytes(aun.0);
    [reordered(high), b, c, low, flag]
}

fn primary_field(aun: Aun, flag: u8) -> [u8; 9]
    ensures { result ≡ primary_field aun.0 flag }
{
    let i = information(aun, flag);
    let mut p = [0u8; 4];
    parity::parity_4(&i, &mut p);
    [i[0], i[1], i[2], i[3], i[4], p[0], p[1], p[2], p[3]]
}

// The address field of a unit with this AUN and this flag byte.
pub fn address_field(aun: Aun, flag: u8) -> [u8; 9]
    ensures { result ≡ address_field aun.0 flag }
{
    partly_inverted(primary_field(aun, flag))
}
