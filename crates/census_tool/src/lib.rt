// What the census program prints, and the program: it reads an image from standard input and writes the census to standard output.
#![tactic(auto)]

ghost use Rattle.std.specs.Prelude.{◌≡◌, ◌++◌, ◌+◌, ◌*◌, ◌≤◌, length};
ghost use Rattle.rules.specs.Text.{decimal, line, lines, report, printed};
ghost use Rattle.rules.specs.Bytes.{zeros};
ghost use Rattle.rules.specs.Refusals.{number_of};
ghost use Rattle.rules.specs.Census.{survey, census};

use arrayvec::ArrayString;
use census::census;
use disk::shape_of;
use rules::refusal::Refusal;
use std::io;
use std::io::Read;

// As many data sectors as an image of 64,000 bytes can have.
const MOST: usize = 250;

// A text with nothing behind it.
fn text<const CAP: usize>(s: &str) -> ArrayString<CAP>
    requires { length s.now ≤ CAP }
    ensures { result.bytes ≡ s.now }
{
    let mut out = ArrayString::new();
    out.push_str(s);
    out
}

// A number in decimal.
pub fn decimal(n: u16) -> ArrayString<5>
    ensures { result.bytes ≡ decimal n }
{
    text(itoa::Buffer::new().format(n))
}

// A line of two numbers.
fn line(x: u16, y: u16) -> ArrayString<12>
    ensures { result.bytes ≡ line x y }
{
    let mut out = text(&decimal(x));
    out.push(' ');
    out.push_str(&decimal(y));
    out.push('\n');
    out
}

// A line for each sector and its owner, put behind a text.
fn push_lines(out: &mut ArrayString<4096>, sectors: &[u16], owners: &[u16])
    requires { length out.old.bytes + 12 * length sectors.now ≤ 4096 }
    ensures { out.new.bytes ≡ out.old.bytes ++ lines sectors.now owners.now }
{
    for (sector, owner) in sectors.iter().zip(owners) {
        out.push_str(&line(*sector, *owner));
    }
}

// What is printed of an answer and outputs.
fn report(answer: Result<(), Refusal>, sectors: &[u16], owners: &[u16]) -> ArrayString<4096>
    requires { length sectors.now ≤ 250 }
    ensures { result.bytes ≡ report (survey (number_of answer) sectors.now owners.now) }
{
    match answer {
        Ok(()) => {
            let mut out = text(&line(0, sectors.len() as u16));
            push_lines(&mut out, sectors, owners);
            out
        }
        Err(e) => text(&line(e.number() as u16, 0)),
    }
}

// What is printed of an image's census with these outputs.
fn census_report(image: &[u8], sectors: &mut [u16], owners: &mut [u16]) -> ArrayString<4096>
    requires { length sectors.old ≤ 250 }
    ensures { result.bytes ≡ report (census image.now sectors.old owners.old) }
{
    let answer = census(image, sectors, owners);
    report(answer, sectors, owners)
}

// The same with outputs of n zeros.
fn sized_report(image: &[u8], n: usize) -> ArrayString<4096>
    requires { n ≤ 250 }
    ensures { result.bytes ≡ report (census image.now (zeros n) (zeros n)) }
{
    let mut sectors = [0u16; MOST];
    let mut owners = [0u16; MOST];
    census_report(image, &mut sectors[..n], &mut owners[..n])
}

// What the census program prints of an image that it read.
pub fn print(image: &[u8]) -> ArrayString<4096>
    ensures { result.bytes ≡ printed image.now }
{
    if image.len() > 64000 {
        return text("too long\n");
    }
    match shape_of(image) {
        Some(shape) => sized_report(image, shape.data_sectors() as usize),
        None => text(&line(41, 0)),
    }
}

// The program: an image is read from standard input, up to 65,536 bytes of it, and what is to be printed is written to standard output.
pub fn run(rt: &(impl Input + Print + Alloc)) -> io::Result<()> {
    let mut input = Vec::new(rt.alloc());
    rt.reader().take(65536).read_to_end(&mut input)?;
    rt.write_all(print(&input).as_bytes())
}
