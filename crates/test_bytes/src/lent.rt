// Slices to be lent to an operation, each with a mark of its own, so that a touched one shows.
ghost use Rattle.std.specs.Prelude.{◌≡◌, length};

pub const USER_MARK: u8 = 60;

pub const SIDE_MARK: u8 = 61;

pub const WORD_MARK: u32 = 62;

pub const IMAGE_MARK: u8 = 165;

pub const WORK_MARK: u8 = 90;

pub fn user() -> [u8; 65536]
    ensures { length result ≡ 65536 }
{
    [USER_MARK; 65536]
}

pub fn side() -> [u8; 592]
    ensures { length result ≡ 592 }
{
    [SIDE_MARK; 592]
}

pub fn words() -> [u32; 496]
    ensures { length result ≡ 496 }
{
    [WORD_MARK; 496]
}

pub fn image() -> [u8; 119788]
    ensures { length result ≡ 119788 }
{
    [IMAGE_MARK; 119788]
}

pub fn work() -> [u8; 76880]
    ensures { length result ≡ 76880 }
{
    [WORK_MARK; 76880]
}
