// Functions: which codes are served, which activities a function takes.
ghost use Rattle.std.specs.Prelude.{◌≡◌};
ghost use Rattle.rules.specs.Bytes.{within};
ghost use Rattle.rules.specs.Refusals.{code};
ghost use Rattle.rules.specs.Block.{idle};
ghost use Rattle.rules.specs.Call.{fits, misfit};
ghost use Rattle.fms.specs.Functions.{function_byte, Decodes};

use blocks::Activity;
use rules::refusal::Refusal;

// What a block asks for: its byte 0.
#[derive(Clone, Copy)]
pub enum Function {
    Transfer = 0,
    OpenRead = 1,
    OpenWrite = 2,
    Close = 4,
    Rewind = 5,
    OpenDirectory = 6,
    NextSlot = 7,
    PutSlot = 8,
    ReadSector = 9,
    WriteSector = 10,
    Delete = 12,
    Rename = 13,
}

impl TryFrom<u8> for Function {
    type Error = Refusal;

    ghost try_from_gives = { Decodes };

    fn try_from(code: u8) -> Result<Self, Refusal> {
        match code {
            0 => Ok(Function::Transfer),
            1 => Ok(Function::OpenRead),
            2 => Ok(Function::OpenWrite),
            4 => Ok(Function::Close),
            5 => Ok(Function::Rewind),
            6 => Ok(Function::OpenDirectory),
            7 => Ok(Function::NextSlot),
            8 => Ok(Function::PutSlot),
            9 => Ok(Function::ReadSector),
            10 => Ok(Function::WriteSector),
            12 => Ok(Function::Delete),
            13 => Ok(Function::Rename),
            _ => Err(Refusal::NotServed),
        }
    }
}

// Open for reading or for writing.
fn is_file(act: u8) -> bool
    ensures { result ≡ within 1 2 act }
{
    Activity::Reading as u8 <= act && act <= Activity::Writing as u8
}

// Closed, or open for the directory.
fn is_idle(act: u8) -> bool
    ensures { result ≡ idle act }
{
    act == Activity::Closed as u8 || act == Activity::Directory as u8
}

// An activity is its byte here. Tried: with Activity::try_from a sector loaded takes 17 instructions more, which misses its bar.
impl Function {
    // Does it take this activity?
    pub fn takes(self, act: u8) -> bool
        ensures { result ≡ fits (function_byte self) act }
    {
        match self {
            Function::Transfer => is_file(act),
            Function::Close => is_file(act) || act == Activity::Directory as u8,
            Function::Rewind => act == Activity::Reading as u8,
            Function::NextSlot => act == Activity::Directory as u8,
            Function::PutSlot => act == Activity::Directory as u8,
            Function::OpenRead
            | Function::OpenWrite
            | Function::OpenDirectory
            | Function::ReadSector
            | Function::WriteSector
            | Function::Delete
            | Function::Rename => is_idle(act),
        }
    }

    // The refusal where it does not.
    pub fn misfit(self, act: u8) -> Refusal
        ensures { code result ≡ misfit (function_byte self) act }
    {
        match (self, act == Activity::Closed as u8) {
            (Function::Close, true) => Refusal::NoBlock,
            _ => Refusal::Unfit,
        }
    }
}
