// A script run: its lines in order, each written out with what came of it.
use crate::ask::Lent;
use crate::command::Command;
use crate::line::Line;
use crate::look::Place;
use crate::{ask, look, map};
use format::Volume;
use std::io;

// A buffer as it is, as it was before the last command that asked the service for something, and how much of it is lent.
#[derive(Drop)]
struct Buffer<const N: usize> {
    bytes: [u8; N],
    before: [u8; N],
    lent: usize,
}

impl<const N: usize> Buffer<N> {
    fn new() -> Self {
        Buffer {
            bytes: [0; N],
            before: [0; N],
            lent: 0,
        }
    }

    fn lent(&mut self) -> &mut [u8] {
        let n = self.lent.min(N);
        &mut self.bytes[..n]
    }

    // The bytes as they are before a command that may change them.
    fn keep(&mut self) {
        self.before.copy_from_slice(&self.bytes);
    }
}

// Room for 81 tracks of 5 sectors, and for nine blocks: a track and a block more than there may be.
const IMAGE_ROOM: usize = 81 * 5 * 256;

const TABLE_ROOM: usize = 9 * 320;

// The buffers of a script.
#[derive(Drop)]
struct Buffers {
    image: Buffer<IMAGE_ROOM>,
    table: Buffer<TABLE_ROOM>,
}

impl Buffers {
    fn new() -> Self {
        Buffers {
            image: Buffer::new(),
            table: Buffer::new(),
        }
    }

    fn lend(&mut self, image: usize, table: usize) {
        self.image.lent = image;
        self.table.lent = table;
    }

    fn lent(&mut self) -> Lent<'_> {
        Lent {
            image: self.image.lent(),
            table: self.table.lent(),
        }
    }

    // The blank five-sector diskette, with no label, number or date; zeros behind it, and in the table.
    fn fresh(&mut self) {
        self.image.bytes.fill(0);
        self.table.bytes.fill(0);
        self.lend(2560, 2560);
        let volume = Volume {
            label: &[0; 11],
            number: 0,
            month: 0,
            day: 0,
            year: 0,
        };
        let _ = format::format(self.image.lent(), 1, 5, volume); // it is 2,560 bytes long
    }

    fn keep(&mut self) {
        self.image.keep();
        self.table.keep();
    }

    fn diff(&self, rt: &impl Print) -> io::Result<()> {
        look::changes(rt, &self.image.bytes, &self.image.before, Place::Image)?;
        look::changes(rt, &self.table.bytes, &self.table.before, Place::Table)
    }

    // One line.
    fn run_line(&mut self, rt: &impl Print, line: Line<'_>) -> io::Result<()> {
        let command = line.command();
        match command {
            Command::Fresh => self.fresh(),
            Command::Lend => self.lend(line.number(0), line.number(1)),
            Command::Diff => self.diff(rt)?,
            _ => {
                choose(command, self.lent(), line);
                if command.is_asking() {
                    self.keep();
                }
                obey(rt, command, self.lent(), line)?;
            }
        }
        Ok(())
    }
}

// The function that a call, a write or a read is about to call.
fn choose(command: Command, mut lent: Lent<'_>, line: Line<'_>) {
    match command {
        Command::Call => lent.function(line, line.byte(1)),
        Command::Write | Command::Read => lent.function(line, 0),
        _ => {}
    }
}

// A command on what is lent.
fn obey(rt: &impl Print, command: Command, mut lent: Lent<'_>, line: Line<'_>) -> io::Result<()> {
    match command {
        Command::Name => lent.name(rt, line, 4),
        Command::As => lent.name(rt, line, 53),
        Command::Preset => lent.preset(rt, line),
        Command::Extension => lent.extension(rt, line),
        Command::Call => lent.call(rt, line),
        Command::Write => lent.write(rt, line),
        Command::Read => lent.read(rt, line),
        Command::Shape => lent.shape(rt, line),
        Command::Text => ask::text(rt, line),
        Command::Map => map::map(rt, lent.image, line.number(0), line.number(1)),
        Command::Image => look::image(rt, lent.image, line),
        Command::Block => look::block(rt, lent.table, line),
        Command::Unknown => print!(rt; "\n? unknown command"),
        Command::Blank | Command::Heading | Command::Fresh | Command::Lend | Command::Diff => {
            Ok(())
        }
    }
}

// A script on buffers of its own. A newline ends each line, or the script's end the last.
pub(crate) fn run(rt: &impl Print, script: &[u8]) -> io::Result<()> {
    let mut buffers = Buffers::new();
    for text in script.split_inclusive(|b| *b == b'\n') {
        let line = text.strip_suffix(b"\n").unwrap_or(text);
        rt.write_all(line)?;
        buffers.run_line(rt, Line(line))?;
        print!(rt; "\n")?;
    }
    Ok(())
}
