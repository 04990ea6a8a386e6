// Legal names: the classes of their bytes, and the test of the eleven bytes of name and extension.
#![tactic(auto)]

ghost use Rattle.std.specs.Prelude.{◌≡◌, ◌==◌, drop};
ghost use Rattle.std.specs.List.{list_all, prefix_len};
ghost use Rattle.rules.specs.Names.{is_letter, is_digit, is_name_byte, is_word, legal};

use cells::copy;

// The classes are told by ranges of a byte, as 01 names this form; the library's `is_ascii_alphabetic` is another.
fn is_letter(b: u8) -> bool
    ensures { result ≡ is_letter b }
{
    matches!(b, b'A'..=b'Z' | b'a'..=b'z')
}

fn is_digit(b: u8) -> bool
    ensures { result ≡ is_digit b }
{
    matches!(b, b'0'..=b'9')
}

// Letters, digits, hyphens and underscores.
fn is_name_byte(b: u8) -> bool
    ensures { result ≡ is_name_byte b }
{
    if is_letter(b) {
        return true;
    }
    if is_digit(b) {
        return true;
    }
    matches!(b, b'-' | b'_')
}

// Do bytes go on as a name does, with zeros at the end?
fn goes_on(bytes: &[u8]) -> bool
    ensures { result ≡ list_all (λ b. b == 0) (drop (prefix_len is_name_byte bytes.now) bytes.now) }
{
    bytes
        .iter()
        .skip_while(|b| is_name_byte(**b))
        .all(|b| *b == 0)
}

// Are bytes a name?
fn is_word(bytes: &[u8]) -> bool
    ensures { result ≡ is_word bytes.now }
{
    match bytes {
        [] => false,
        [first, rest @ ..] => is_letter(*first) && goes_on(rest),
    }
}

// Is the name of eight bytes at a place legal, and the extension of three behind it?
pub fn legal_name(table: &[u8], at: usize) -> bool
    ensures { result ≡ legal table.now at }
{
    let mut name = [0; 11];
    copy(&mut name, 0, table, at, 11);
    is_word(&name[..8]) && is_word(&name[8..])
}
