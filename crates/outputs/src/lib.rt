// Do no two of the census's numbers agree? Marks in an output, a slice of 16-bit numbers, tell.
#![tactic(auto)]

ghost use Rattle.std.specs.Prelude.{◌≡◌, length};
ghost use Rattle.rules.specs.Bytes.{zeros};
ghost use Rattle.census_laws.specs.Marks.{marked, marking};

use cells::fill;

// Marks are set as numbers are met, each at its place: is each number below their count, and had none a mark?
fn mark(numbers: &[u16], marks: &mut [u16]) -> bool
    ensures { marked result marks.new ≡ marking marks.old numbers.now }
{
    for &number in numbers {
        let x = usize::from(number);
        if x >= marks.len() || marks[x] != 0 {
            return false;
        }
        marks[x] = 1;
    }
    true
}

// Are numbers all below the count of marks, and is none among them twice? All marks are cleared first.
pub fn are_new(numbers: &[u16], marks: &mut [u16]) -> bool
    ensures { marked result marks.new ≡ marking (zeros (length marks.old)) numbers.now }
{
    fill(marks, 0);
    mark(numbers, marks)
}
