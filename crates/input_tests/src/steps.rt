// The tests, in rising order.
ghost use Rattle.std.specs.Prelude.{◌≡◌, length};
ghost use Rattle.sizes.specs.Sizes.{frame_count};
ghost use Rattle.input_tests.specs.Parts.{first_too_large, parts_answer};

use address::Psn;
use answer::Answer;

// Test 8: the first dc word above 0FFFFFFFh, or 496.
fn first_too_large(dc: &[u32]) -> usize
    requires { length dc.now ≡ frame_count }
    ensures { result ≡ first_too_large dc.now }
{
    let mut n = 0;
    while n < sizes::FRAMES {
        if 0x0FFF_FFFF < dc[n] {
            return n;
        }
        n += 1;
    }
    n
}

// Tests 6 to 8: the PSN and the dc words.
pub fn judge(psn: Psn, dc: &[u32]) -> Answer
    requires { length dc.now ≡ frame_count }
    ensures { result ≡ parts_answer psn.0 dc.now }
{
    let sector = psn.judge();
    if sector.is_done() {
        let n = first_too_large(dc);
        if n < sizes::FRAMES {
            return Answer::DcWord(n);
        }
    }
    sector
}
