// A length that is tested; answers 1 to 5, the lengths of lent slices.
#![tactic(auto)]

ghost use Rattle.std.specs.Prelude.{◌≡◌};
ghost use Rattle.lengths.specs.Lengths.{sized, lengths_answer};

use answer::Answer;

// A length that has to be `right`; the refusal where it is another.
pub fn sized(size: usize, right: usize, refusal: Answer) -> Answer
    ensures { result ≡ sized size right refusal }
{
    if size != right {
        return refusal;
    }
    Answer::Done
}

// Tests 1 to 5: the lengths of the lent slices.
pub fn judge(user: usize, side: usize, dc: usize, image: usize, work: usize) -> Answer
    ensures { result ≡ lengths_answer user side dc image work }
{
    let one = sized(user, sizes::USER, Answer::WrongUser(0));
    let two = sized(side, sizes::SIDE, Answer::WrongSide);
    let three = sized(dc, sizes::FRAMES, Answer::WrongDc);
    let four = sized(image, sizes::IMAGE, Answer::WrongImage);
    let five = sized(work, sizes::WORK, Answer::WrongWork);
    one.and_then(two.and_then(three.and_then(four.and_then(five))))
}
