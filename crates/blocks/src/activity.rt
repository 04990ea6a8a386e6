ghost use Rattle.std.specs.Prelude.{◌≡◌};
ghost use Rattle.rules.specs.Block.{idle};
ghost use Rattle.blocks.specs.Activities.{activity_byte, Decodes};

use rules::refusal::Refusal;

// What a block does: its byte 2. A byte that is none of these fits no function.
#[derive(Clone, Copy)]
pub enum Activity {
    Closed = 0,
    Reading = 1,
    Writing = 2,
    Directory = 16,
}

impl TryFrom<u8> for Activity {
    type Error = Refusal;

    ghost try_from_gives = { Decodes };

    fn try_from(byte: u8) -> Result<Self, Refusal> {
        match byte {
            0 => Ok(Activity::Closed),
            1 => Ok(Activity::Reading),
            2 => Ok(Activity::Writing),
            16 => Ok(Activity::Directory),
            _ => Err(Refusal::Unfit),
        }
    }
}

impl Activity {
    // Its byte.
    pub fn byte(self) -> u8
        ensures { result ≡ activity_byte self }
    {
        self as u8
    }

    // Closed, or open for the directory.
    pub fn is_idle(self) -> bool
        ensures { result ≡ idle (activity_byte self) }
    {
        matches!(self, Activity::Closed | Activity::Directory)
    }
}
