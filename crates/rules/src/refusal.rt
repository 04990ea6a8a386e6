// Why something is refused: the numbers given back, each the value of its name.

ghost use Rattle.std.specs.Prelude.{◌≡◌};

#[derive(Clone, Copy)]
pub enum Refusal {
    NotServed = 1,
    InUse = 2,
    Exists = 3,
    NotFound = 4,
    NoDirectory = 5,
    DiskFull = 7,
    AtEnd = 8,
    BadRead = 9,
    BadWrite = 10,
    WriteProtected = 11,
    DeleteProtected = 12,
    NoBlock = 13,
    NoDiskette = 16,
    ReadProtected = 17,
    Unfit = 18,
    BadName = 21,
    WrongLength = 40,
    WrongShape = 41,
    WrongDirectory = 42,
    SameName = 43,
    WrongFreeChain = 44,
    WrongFile = 45,
    NotOnce = 46,
}

impl Refusal {
    ghost use Rattle.rules.specs.Refusals.{code};

    // Its number.
    pub fn number(self) -> u8
        ensures { result ≡ code self }
    {
        self as u8
    }
}
