// The commands of a script, and which of them a word is.
#[derive(Clone, Copy, PartialEq, Eq)]
pub(crate) enum Command {
    Blank,
    Heading,
    Fresh,
    Lend,
    Diff,
    Name,
    As,
    Preset,
    Extension,
    Call,
    Write,
    Read,
    Shape,
    Map,
    Text,
    Image,
    Block,
    Unknown,
}

impl From<&[u8]> for Command {
    fn from(word: &[u8]) -> Command {
        match word {
            b"#" => Command::Heading,
            b"fresh" => Command::Fresh,
            b"lend" => Command::Lend,
            b"diff" => Command::Diff,
            b"name" => Command::Name,
            b"as" => Command::As,
            b"preset" => Command::Preset,
            b"extension" => Command::Extension,
            b"call" => Command::Call,
            b"write" => Command::Write,
            b"read" => Command::Read,
            b"shape" => Command::Shape,
            b"map" => Command::Map,
            b"text" => Command::Text,
            b"image" => Command::Image,
            b"block" => Command::Block,
            _ => Command::Unknown,
        }
    }
}

impl Command {
    // Does it ask the service for something that may change the buffers?
    pub(crate) fn is_asking(self) -> bool {
        matches!(
            self,
            Command::Name
                | Command::As
                | Command::Preset
                | Command::Extension
                | Command::Call
                | Command::Write
                | Command::Read
                | Command::Shape
        )
    }
}
