// Commands to the service, on the parts of the buffers that are lent.
use crate::line::Line;
use crate::say::Run;
use format::Volume;
use rules::refusal::Refusal;
use std::io;

// What is lent of the image and of the table.
#[derive(Drop)]
pub(crate) struct Lent<'a> {
    pub(crate) image: &'a mut [u8],
    pub(crate) table: &'a mut [u8],
}

// How many calls were accepted, and the last answer.
#[derive(Clone, Copy)]
struct Sent {
    accepted: usize,
    answer: u8,
}

// An answer as a number.
pub(crate) fn number<T: Drop>(answer: Result<T, Refusal>) -> u8 {
    match answer {
        Ok(_) => 0,
        Err(e) => e.number(),
    }
}

// A function's name.
fn function_name(code: u8) -> &'static str {
    match code {
        0 => "next byte",
        1 => "open read",
        2 => "open write",
        4 => "close",
        5 => "rewind",
        6 => "open directory",
        7 => "next slot",
        8 => "put slot",
        9 => "read sector",
        10 => "write sector",
        12 => "delete",
        13 => "rename",
        _ => "not served",
    }
}

// Eleven bytes of a name: eight before the first dot, three behind it, zeros behind each.
fn name_bytes(text: &[u8]) -> [u8; 11] {
    let mut bytes = [0u8; 11];
    let mut parts = text.splitn(2, |b| *b == b'.');
    let name = parts.next().unwrap_or(&[]);
    let extension = parts.next().unwrap_or(&[]);
    for (byte, letter) in bytes[..8].iter_mut().zip(name) {
        *byte = *letter;
    }
    for (byte, letter) in bytes[8..].iter_mut().zip(extension) {
        *byte = *letter;
    }
    bytes
}

impl Lent<'_> {
    // The eleven bytes of a name preset from an offset on.
    pub(crate) fn name(&mut self, rt: &impl Print, line: Line<'_>, offset: u8) -> io::Result<()> {
        let fcb = line.number(0);
        let mut answer = 0;
        for (i, byte) in name_bytes(line.text()).iter().enumerate() {
            let preset = blocks::preset(self.table, fcb, offset as usize + i, *byte);
            answer = number(preset);
        }
        print!(rt; " -> {answer}")
    }

    pub(crate) fn preset(&mut self, rt: &impl Print, line: Line<'_>) -> io::Result<()> {
        let preset = blocks::preset(self.table, line.number(0), line.number(1), line.byte(2));
        let answer = number(preset);
        print!(rt; " -> {answer}")
    }

    pub(crate) fn extension(&mut self, rt: &impl Print, line: Line<'_>) -> io::Result<()> {
        let extension = blocks::default_extension(self.table, line.number(0), line.number(1));
        let answer = number(extension);
        print!(rt; " -> {answer}")
    }

    // The function that is called next.
    pub(crate) fn function(&mut self, line: Line<'_>, code: u8) {
        let _ = blocks::preset(self.table, line.number(0), 0, code); // a call that follows says what is wrong
    }

    // The FMS call: the byte that it gives, or its refusal.
    fn ask(&mut self, fcb: usize, byte: u8) -> Result<u8, Refusal> {
        fms::call(self.image, self.table, fcb, byte)
    }

    pub(crate) fn call(&mut self, rt: &impl Print, line: Line<'_>) -> io::Result<()> {
        let given = self.ask(line.number(0), line.byte(2));
        let byte = given.unwrap_or(0);
        let answer = number(given);
        let name = function_name(line.byte(1));
        print!(rt; " -> {name}: {answer} byte {byte}")
    }

    // A byte sent n times, till a call is refused.
    fn send(&mut self, fcb: usize, n: usize, byte: u8) -> Sent {
        for accepted in 0..n {
            if let Err(e) = self.ask(fcb, byte) {
                return Sent {
                    accepted,
                    answer: e.number(),
                };
            }
        }
        Sent {
            accepted: n,
            answer: 0,
        }
    }

    pub(crate) fn write(&mut self, rt: &impl Print, line: Line<'_>) -> io::Result<()> {
        let Sent { accepted, answer } = self.send(line.number(0), line.number(1), line.byte(2));
        print!(rt; " -> {accepted} accepted, last answer {answer}")
    }

    // Up to n bytes read, each put in the run, till a call is refused; the last answer.
    fn fetch(&mut self, rt: &impl Print, fcb: usize, n: usize, run: &mut Run) -> io::Result<u8> {
        for _ in 0..n {
            match self.ask(fcb, 0) {
                Ok(byte) => run.push(rt, byte)?,
                Err(e) => return Ok(e.number()),
            }
        }
        Ok(0)
    }

    pub(crate) fn read(&mut self, rt: &impl Print, line: Line<'_>) -> io::Result<()> {
        print!(rt; " ->")?;
        let mut run = Run::default();
        let answer = self.fetch(rt, line.number(0), line.number(1), &mut run)?;
        if run.is_empty() {
            print!(rt; " none")?;
        }
        run.end(rt)?;
        print!(rt; ", last answer {answer}")
    }

    // What is lent of the image formatted, with a label of some of the letters.
    pub(crate) fn shape(&mut self, rt: &impl Print, line: Line<'_>) -> io::Result<()> {
        let letters = b"ABCDEFGHIJKLMNOPQRSTUVWXYZABCDEF";
        let volume = Volume {
            label: &letters[..line.number(2).min(32)],
            number: (line.number(3) & 0xffff) as u16,
            month: line.byte(4),
            day: line.byte(5),
            year: line.byte(6),
        };
        let answer = number(format::format(self.image, line.number(0), line.number(1), volume));
        print!(rt; " -> {answer}")
    }
}

// The error text of a number into a text of some dots, at most 32.
pub(crate) fn text(rt: &impl Print, line: Line<'_>) -> io::Result<()> {
    let mut dots = [b'.'; 32];
    let text = &mut dots[..line.number(0).min(32)];
    let answer = number(message::error_text(text, line.byte(1)));
    print!(rt; " -> {answer} \"")?;
    rt.write_all(text)?;
    print!(rt; "\"")
}
