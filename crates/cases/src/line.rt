// What stands in a line of the script: its command, its numbers, the text behind its second word.
ghost use Rattle.std.specs.Prelude.{◌<◌, ◌^◌, length};
ghost use Rattle.std.specs.Iterator.{at_most};

use crate::command::Command;

#[derive(Clone, Copy)]
pub(crate) struct Line<'a>(pub(crate) &'a [u8]);

impl<'a> Line<'a> {
    // The command of its first word, which a space or the line's end ends.
    pub(crate) fn command(self) -> Command {
        if self.0.is_empty() {
            return Command::Blank;
        }
        self.0
            .split(|b| *b == b' ')
            .next()
            .map_or(Command::Unknown, Command::from)
    }

    // Its numbers: each row of digits is one, whatever stands between them.
    pub(crate) fn numbers(self) -> Numbers<'a> {
        Numbers(self.0)
    }

    // The number with this index, counted from 0; 0 where the line has fewer.
    pub(crate) fn number(self, index: usize) -> usize
        ensures { result < 2 ^ 32 }
    {
        self.numbers().nth(index).unwrap_or(0) as usize
    }

    // The number with this index as a byte.
    pub(crate) fn byte(self, index: usize) -> u8 {
        (self.number(index) & 0xff) as u8
    }

    // What stands behind its second space.
    pub(crate) fn text(self) -> &'a [u8] {
        self.0.splitn(3, |b| *b == b' ').nth(2).unwrap_or(&[])
    }

    pub(crate) fn has(self, byte: u8) -> bool {
        self.0.contains(&byte)
    }
}

// The numbers in a text that are not read yet.
#[derive(Drop)]
pub(crate) struct Numbers<'a>(&'a [u8]);

// The value of digits, of the first nine where there are more.
fn value(digits: &[u8]) -> u32 {
    digits.iter().fold(0, |value, digit| {
        if value >= 100000000 {
            value
        } else {
            value * 10 + (*digit % 16) as u32
        }
    })
}

impl<'a> Iterator for Numbers<'a> {
    type Item = u32;

    ghost remaining = { λ s. at_most (length s.0.now) };

    fn next(&mut self) -> Option<u32> {
        let first = self.0.iter().position(|b| b.is_ascii_digit())?;
        let text = &self.0[first..];
        let more = text[1..].iter().take_while(|b| b.is_ascii_digit()).count();
        let (digits, rest) = text.split_at(1 + more);
        self.0 = rest;
        Some(value(digits))
    }
}
