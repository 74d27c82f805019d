// Bytes scrambled, for the crates of this repository.
ghost use Rattle.std.specs.Prelude.{◌≡◌, ◌≤◌, length};
ghost use Rattle.scrambling.specs.Scrambling.{scrambled};

// The bytes of a data frame scrambled, or unscrambled, into a slice of as many.
pub fn scramble(from: &[u8], stream: &[u8], to: &mut [u8])
    requires { (length from.now ≡ length to.old) × (length from.now ≤ length stream.now) }
    ensures { to.new ≡ scrambled stream.now from.now }
{
    for k in 0..to.len() {
        to[k] = from[k] ^ stream[k];
    }
}
