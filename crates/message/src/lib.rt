// The error text: a number given back, as a line of text.
#![tactic(auto)]

ghost use Rattle.std.specs.Prelude.{◌≡◌};
ghost use Rattle.rules.specs.Refusals.{number_of};
ghost use Rattle.rules.specs.Outcome.{told};
ghost use Rattle.rules.specs.Text.{digit, error_text};

use cells::store;
use rules::refusal::Refusal;

// A number's last digit as a letter.
fn digit(number: u8) -> u8
    ensures { result ≡ digit number }
{
    b'0' + number % 10
}

// "DISK ERROR #" and three digits in the first 15 bytes of a text; 40 where it has fewer.
pub fn error_text(text: &mut [u8], number: u8) -> Result<(), Refusal>
    ensures { told (number_of result) text.new ≡ error_text text.old number }
{
    if text.len() < 15 {
        return Err(Refusal::WrongLength);
    }
    let three = [digit(number / 100), digit(number / 10), digit(number)];
    store(text, 0, b"DISK ERROR #");
    store(text, 12, &three);
    Ok(())
}
