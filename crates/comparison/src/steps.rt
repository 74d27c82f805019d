// The first byte that differs, and the verdict.
ghost use Rattle.std.specs.Prelude.{◌≡◌, ◌<◌, ◌≤◌, length, SomeIff};
ghost use Rattle.comparison.specs.Compared.{first_other, compared};
ghost use Rattle.sizes.specs.Sizes.{side_size, user_size};

use address::Psn;
use verdict::Verdict;

// The first of n bytes that differs.
fn first_other(n: usize, a: &[u8], b: &[u8]) -> Option<usize>
    requires { (n ≤ length a.now) × (n ≤ length b.now) }
    ensures { SomeIff result (first_other n a.now b.now < n) (first_other n a.now b.now) }
{
    for k in 0..n {
        if a[k] != b[k] {
            return Some(k);
        }
    }
    None
}

// What is given beside what was read in an accepted image: the PSN, then the user bytes, then the side data.
#[tactic(auto, unfolding(crate::specs::Compared::compared))]
pub fn compare(
    psn: Psn,
    user: &[u8],
    side: &[u8],
    found: Psn,
    bytes: &[u8],
    control: &[u8],
) -> Verdict
    requires { ((user_size ≤ length user.now) × (side_size ≤ length side.now)) × ((user_size ≤ length bytes.now) × (side_size ≤ length control.now)) }
    ensures { result ≡ compared psn.0 user.now side.now found.0 bytes.now control.now }
{
    if found.0 != psn.0 {
        return Verdict::OtherPsn(found);
    }
    if let Some(u) = first_other(sizes::USER, user, bytes) {
        return Verdict::OtherUser(u);
    }
    if let Some(s) = first_other(sizes::SIDE, side, control) {
        return Verdict::OtherSide(s);
    }
    Verdict::Pass
}
