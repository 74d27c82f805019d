// Transitions and ends. A constant is copied where it is read.
ghost use Rattle.std.specs.Prelude.{◌≡◌};
ghost use Rattle.automaton.specs.Automaton.{transitions, ends};

// State s at group g, at place 8 s + g: 32 times what is added, and the next state.
const TRANSITIONS: [u16; 144] = [
    3, 68, 5, 2, 2, 102, 2, 2, 7, 68, 5, 2, 2, 2, 2, 2, 2, 2, 2, 2, 2, 2, 2, 2, 2, 2, 2, 2, 8, 2,
    2, 2, 9, 68, 5, 2, 2, 2, 2, 2, 10, 196, 133, 2, 11, 230, 2, 2, 7, 68, 12, 2, 2, 2, 2, 2, 387,
    452, 396, 2, 8, 486, 2, 2, 13, 196, 133, 2, 78, 230, 2, 2, 15, 452, 396, 2, 8, 486, 2, 2, 259,
    324, 261, 2, 520, 358, 2, 2, 16, 452, 389, 2, 14, 486, 2, 2, 10, 193, 133, 2, 11, 241, 2, 2, 2,
    324, 288, 2, 520, 358, 2, 2, 131, 196, 133, 2, 0, 230, 2, 2, 2, 2, 2949, 2, 1544, 2, 2, 2, 2,
    68, 32, 2, 1544, 102, 2, 2, 7, 68, 2, 2, 2, 2, 2, 2,
];

// State s at the frame's end, at place 2 s + #: twice what is added, or 1 where no frame ends so.
const ENDS: [u16; 36] = [
    0, 1, 0, 1, 1, 1, 1, 0, 0, 1, 2, 1, 0, 1, 6, 0, 2, 1, 6, 0, 4, 8, 6, 0, 2, 1, 4, 8, 2, 1, 1,
    24, 0, 24, 0, 1,
];

pub fn transitions() -> [u16; 144]
    ensures { result ≡ transitions }
{
    TRANSITIONS
}

pub fn ends() -> [u16; 36]
    ensures { result ≡ ends }
{
    ENDS
}
