// Bytes written out in a row, eight and more equal ones as "byte*count".
use std::fmt::{Display, Formatter, Write};
use std::{fmt, io, mem};

// Equal bytes in a row, so many times.
#[derive(Clone, Copy, Default)]
pub(crate) struct Run {
    byte: u8,
    times: usize,
}

impl Display for Run {
    fn fmt<W: Write>(&self, f: &mut Formatter<W>) -> fmt::Result {
        let byte = self.byte;
        let times = self.times;
        if times >= 8 {
            return write!(f, " {byte}*{times}");
        }
        for _ in 0..times {
            write!(f, " {byte}")?;
        }
        Ok(())
    }
}

impl Run {
    pub(crate) fn is_empty(self) -> bool {
        self.times == 0
    }

    // The run is over: it is written out, and the next has no byte yet.
    pub(crate) fn end(&mut self, rt: &impl Print) -> io::Result<()> {
        let over = mem::take(self);
        if over.is_empty() {
            return Ok(());
        }
        rt.print(over)
    }

    // One byte more: in the run, or the run is over and the byte begins the next.
    pub(crate) fn push(&mut self, rt: &impl Print, byte: u8) -> io::Result<()> {
        if self.times < 65536 && byte == self.byte {
            self.times += 1;
            return Ok(());
        }
        self.end(rt)?;
        *self = Run { byte, times: 1 };
        Ok(())
    }
}
