// The image reader: it keeps the lent image and a bit position, and takes three bits per step.
#![tactic(auto)]

ghost use Rattle.std.specs.Prelude.{◌≡◌};
ghost use Rattle.bits.specs.Bits.{bits_of};
ghost use Rattle.bits.specs.Step.{step_at};
ghost use Rattle.bit_reader.specs.Reader.{step_of, stepped};

use bits::Step;

#[derive(Clone, Copy)]
pub struct ImageReader<'a> {
    pub image: &'a [u8],
    pub position: usize,
}

impl<'a> ImageReader<'a> {
    // A reader at the image's first bit.
    pub fn new(image: &'a [u8]) -> ImageReader<'a>
        ensures { (result.image ≡ image.entry) × (result.position ≡ 0) }
    {
        ImageReader { image, position: 0 }
    }

    // The next three bits as a number from 0 to 7, and the reader stands behind them; 8 with fewer left, and it stays.
    pub fn step(&mut self) -> u8
        ensures { (result ≡ (step_of self.old).value) × (self.new ≡ stepped self.old) }
    {
        let step = bits::read_three(self.image, self.position);
        self.position = step.next;
        step.value
    }
}

// A step from a position of an image, for callers with plain slices and numbers.
pub fn step_from(image: &[u8], position: usize) -> Step
    ensures { result ≡ step_at (bits_of image.now) position }
{
    let mut reader = ImageReader { image, position };
    let value = reader.step();
    Step {
        value,
        next: reader.position,
    }
}
