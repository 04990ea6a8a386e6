// Bytes of image and blocks: shown, put by hand, and compared with what they were.
use crate::line::Line;
use crate::say::Run;
use std::fmt::{Display, Formatter, Write};
use std::{fmt, io, iter};

// The numbers of a line from an index on, at most 64, put as bytes from a place on.
fn put_all(s: &mut [u8], from: usize, line: Line<'_>, index: usize) {
    let numbers = line.numbers().skip(index).take(64);
    let from = from.min(s.len()); // a part, for `skip` steps through what it passes over
    for (byte, n) in s[from..].iter_mut().zip(numbers) {
        *byte = (n & 0xff) as u8;
    }
}

// n bytes from a place on, zeros for those that are not there.
fn show(rt: &impl Print, s: &[u8], from: usize, n: usize) -> io::Result<()> {
    print!(rt; " ->")?;
    let mut run = Run::default();
    let part = &s[from.min(s.len())..];
    for byte in part.iter().copied().chain(iter::repeat(0)).take(n) {
        run.push(rt, byte)?;
    }
    run.end(rt)
}

// Bytes from a place on: those of the line put there where it has a `=`; else as many shown as it says.
fn at(rt: &impl Print, s: &mut [u8], from: usize, line: Line<'_>, index: usize) -> io::Result<()> {
    if line.has(b'=') {
        put_all(s, from, line, index);
        return Ok(());
    }
    show(rt, s, from, line.number(index))
}

pub(crate) fn image(rt: &impl Print, image: &mut [u8], line: Line<'_>) -> io::Result<()> {
    at(rt, image, line.number(0), line, 1)
}

pub(crate) fn block(rt: &impl Print, table: &mut [u8], line: Line<'_>) -> io::Result<()> {
    at(rt, table, 320 * line.number(0) + line.number(1), line, 2)
}

// Where a run of changed bytes begins: in the image, or in the table of blocks.
#[derive(Clone, Copy)]
pub(crate) enum Place {
    Image(usize),
    Table(usize),
}

impl Display for Place {
    fn fmt<W: Write>(&self, f: &mut Formatter<W>) -> fmt::Result {
        match *self {
            Place::Image(at) => write!(f, "image {at}"),
            Place::Table(at) => write!(f, "block {} {}", at / 320, at % 320),
        }
    }
}

// The bytes of s that are not what they were.
pub(crate) fn changes<F: Fn(usize) -> Place>(
    rt: &impl Print,
    s: &[u8],
    before: &[u8],
    place: F,
) -> io::Result<()>
    requires { F.IsAlwaysCallable place }
{
    let mut run = Run::default();
    for (i, (now, old)) in s.iter().zip(before).enumerate() {
        if now == old {
            run.end(rt)?;
            continue;
        }
        if run.is_empty() {
            print!(rt; "\n  {}:", place(i))?;
        }
        run.push(rt, *now)?;
    }
    run.end(rt)
}
