// The inversion of an address field, for the crates of this repository.
ghost use Rattle.std.specs.Prelude.{◌≡◌};
ghost use Rattle.bis.specs.AddressField.{partly_inverted};

// Bytes 2, 3, 5 and 6 inverted; it undoes itself.
pub fn partly_inverted(f: [u8; 9]) -> [u8; 9]
    ensures { result ≡ partly_inverted f }
{
    [f[0], f[1], !f[2], !f[3], f[4], !f[5], !f[6], f[7], f[8]]
}
