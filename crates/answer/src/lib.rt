// What operations answer: a case for each row of document 01's table of returned numbers, and for each of document 02's that has landed.
#![tactic(auto)]

ghost use Rattle.std.specs.Prelude.{◌≡◌};
ghost use Rattle.answer.specs.Answer.{number_of, place_of, is_done, and_then};

#[derive(Clone, Copy)]
pub enum Answer {
    Done,
    // Which of the slices of user bytes, where an operation takes more than one.
    WrongUser(usize),
    WrongSide,
    WrongDc,
    WrongImage,
    WrongWork,
    // Which of the PSNs, where an operation takes more than one.
    NoMultiple(usize),
    NoZone(usize),
    // The lowest dc word above 0FFFFFFFh.
    DcWord(usize),
    LastBits,
    // The lowest frame whose sync is wrong; 496 is the closing sync.
    Sync(usize),
    // The lowest frame that no 1,268 bits give.
    Frame(usize),
    BisColumn(usize),
    AddressUnit(usize),
    NoPsn,
    LdcColumn(usize),
    Sector(usize),
    // The row of a frame (document 02).
    WrongRow,
    // The data and parity slices of a column (document 02).
    WrongColumn,
    // The number of entries of a sheet (document 02).
    WrongCount,
    // The lowest entry of a sheet whose PSN an earlier one has.
    Repeated(usize),
    // A record of the queue that is short, long or unknown (document 02).
    WrongRecord,
    // A bench above 3.
    NoBench,
    // A bench that has a waiting order already.
    BenchWaiting,
}

impl Answer {
    // The documents' number.
    pub fn number(self) -> u32
        ensures { result ≡ number_of self }
    {
        match self {
            Answer::Done => 0,
            Answer::WrongUser(_) => 1,
            Answer::WrongSide => 2,
            Answer::WrongDc => 3,
            Answer::WrongImage => 4,
            Answer::WrongWork => 5,
            Answer::NoMultiple(_) => 6,
            Answer::NoZone(_) => 7,
            Answer::DcWord(_) => 8,
            Answer::LastBits => 9,
            Answer::Sync(_) => 10,
            Answer::Frame(_) => 11,
            Answer::BisColumn(_) => 12,
            Answer::AddressUnit(_) => 13,
            Answer::NoPsn => 14,
            Answer::LdcColumn(_) => 15,
            Answer::Sector(_) => 16,
            Answer::WrongRow => 21,
            Answer::WrongColumn => 22,
            Answer::WrongCount => 23,
            Answer::Repeated(_) => 24,
            Answer::WrongRecord => 26,
            Answer::NoBench => 27,
            Answer::BenchWaiting => 28,
        }
    }

    // Its place, 0 where they name none.
    pub fn place(self) -> usize
        ensures { result ≡ place_of self }
    {
        match self {
            Answer::Done => 0,
            Answer::WrongUser(n) => n,
            Answer::WrongSide => 0,
            Answer::WrongDc => 0,
            Answer::WrongImage => 0,
            Answer::WrongWork => 0,
            Answer::NoMultiple(n) => n,
            Answer::NoZone(n) => n,
            Answer::DcWord(n) => n,
            Answer::LastBits => 0,
            Answer::Sync(n) => n,
            Answer::Frame(n) => n,
            Answer::BisColumn(n) => n,
            Answer::AddressUnit(n) => n,
            Answer::NoPsn => 0,
            Answer::LdcColumn(n) => n,
            Answer::Sector(n) => n,
            Answer::WrongRow => 0,
            Answer::WrongColumn => 0,
            Answer::WrongCount => 0,
            Answer::Repeated(n) => n,
            Answer::WrongRecord => 0,
            Answer::NoBench => 0,
            Answer::BenchWaiting => 0,
        }
    }

    pub fn is_done(self) -> bool
        ensures { result ≡ is_done self }
    {
        self.number() == 0
    }

    // Two tests in rising order: the second speaks where the first is passed.
    pub fn and_then(self, next: Answer) -> Answer
        ensures { result ≡ and_then self next }
    {
        if self.is_done() {
            return next;
        }
        self
    }
}
