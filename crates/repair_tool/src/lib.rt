// What the repair program prints, and the program: it reads an image from standard input, and writes to standard output the census of the
// image as it was, repair's answer, and the census of the image as repair left it.
#![tactic(auto)]

ghost use Rattle.std.specs.Prelude.{◌≡◌};
ghost use Rattle.rules.specs.Outcome.{left_of};
ghost use Rattle.rules.specs.Refusals.{number_of};
ghost use Rattle.rules.specs.Repair.{repair};
ghost use Rattle.repair_tool.specs.Reported.{closed, answered, reported};

use arrayvec::ArrayString;
use census_tool::decimal;
use repair::repair;
use rules::refusal::Refusal;
use std::io;
use std::io::Read;

// A table of which every block is closed.
fn closed_table() -> [u8; 2560]
    ensures { result ≡ closed }
{
    [0u8; 2560]
}

// A line that says repair's answer.
fn answer_line(answer: Result<(), Refusal>) -> ArrayString<13>
    ensures { result.bytes ≡ answered (number_of answer) }
{
    let number = match answer {
        Ok(()) => 0,
        Err(e) => e.number(),
    };
    let mut out = ArrayString::new();
    out.push_str("repair ");
    out.push_str(&decimal(number as u16));
    out.push('\n');
    out
}

// What the repair program prints of an image that it read. The image is repaired.
pub fn print(image: &mut [u8]) -> ArrayString<8205>
    ensures text { result.bytes ≡ reported image.old }
    ensures repaired { image.new ≡ left_of (repair image.old closed) }
{
    let mut out = ArrayString::new();
    out.push_str(&census_tool::print(image));
    let answer = repair(image, &closed_table());
    out.push_str(&answer_line(answer));
    out.push_str(&census_tool::print(image));
    out
}

// The program: an image is read from standard input, up to 65,536 bytes of it, and what is to be printed is written to standard output.
pub fn run(rt: &(impl Input + Print + Alloc)) -> io::Result<()> {
    let mut input = Vec::new(rt.alloc());
    rt.reader().take(65536).read_to_end(&mut input)?;
    rt.write_all(print(&mut input).as_bytes())
}
