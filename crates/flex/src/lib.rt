// The seven entries: numbers and byte slices, as the C interface has them. Nothing else stands here but how an answer becomes a number;
// the crate flex_c exports them to host programs. What each promises is a predicate of specs/Promised.antt.
#![tactic(auto)]

ghost use Rattle.std.specs.Prelude.{◌≡◌};
ghost use Rattle.rules.specs.Refusals.{number_of};
ghost use Rattle.flex.specs.Promised.{PresetPromise, ExtensionPromise, CallPromise, CensusPromise, TextPromise, FormatPromise, RepairPromise};

use format::Volume;
use rules::refusal::Refusal;

// An answer as a number: 0, or the refusal's.
fn as_number(answer: Result<(), Refusal>) -> u32
    ensures { result ≡ number_of answer }
{
    match answer {
        Ok(()) => 0,
        Err(e) => e.number() as u32,
    }
}

// Preset: the answer.
pub fn flex_preset(table: &mut [u8], fcb: usize, offset: usize, value: u8) -> u32
    ensures { PresetPromise table.old fcb offset value result table.new }
{
    as_number(blocks::preset(table, fcb, offset, value))
}

// Default extension: the answer.
pub fn flex_extension(table: &mut [u8], fcb: usize, code: usize) -> u32
    ensures { ExtensionPromise table.old fcb code result table.new }
{
    as_number(blocks::default_extension(table, fcb, code))
}

// The FMS call: 256 times the answer plus the byte.
pub fn flex_call(image: &mut [u8], table: &mut [u8], fcb: usize, byte: u8) -> u32
    ensures { CallPromise image.old table.old fcb byte result image.new table.new }
{
    match fms::call(image, table, fcb, byte) {
        Ok(given) => given as u32,
        Err(e) => 256 * e.number() as u32,
    }
}

// The census: the answer, and both outputs as bytes, two an entry.
pub fn flex_census(image: &[u8], sectors: &mut [u8], owners: &mut [u8]) -> u32
    ensures { CensusPromise image.now sectors.old owners.old result sectors.new owners.new }
{
    as_number(census_bytes::census_bytes(image, sectors, owners))
}

// The error text: the answer.
pub fn flex_error_text(text: &mut [u8], number: u8) -> u32
    ensures { TextPromise text.old number result text.new }
{
    as_number(message::error_text(text, number))
}

// Format: the answer.
pub fn flex_format(
    image: &mut [u8],
    last: usize,
    per: usize,
    label: &[u8],
    volume: u16,
    month: u8,
    day: u8,
    year: u8,
) -> u32
    ensures { FormatPromise image.old last per label.now volume month day year result image.new }
{
    let volume = Volume {
        label,
        number: volume,
        month,
        day,
        year,
    };
    as_number(format::format(image, last, per, volume))
}

// Repair: the answer.
pub fn flex_repair(image: &mut [u8], table: &[u8]) -> u32
    ensures { RepairPromise image.old table.now result image.new }
{
    as_number(repair::repair(image, table))
}
