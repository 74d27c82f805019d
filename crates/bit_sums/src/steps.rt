// Of each bit and those above it.
ghost use mathlib.Core.Path.{◌≡◌};
ghost use Prim.Native.Nat.{◌/◌};
ghost use lib.Bits.{bit_xor};

// The number that, with itself one bit lower, has the exclusive or w: its bit i is the sum of bits i and above of w.
pub fn sums(w: u64) -> u64
    ensures { bit_xor result (result / 2) ≡ w }
{
    let a = w ^ (w >> 1);
    let b = a ^ (a >> 2);
    let c = b ^ (b >> 4);
    let d = c ^ (c >> 8);
    let e = d ^ (d >> 16);
    e ^ (e >> 32)
}
