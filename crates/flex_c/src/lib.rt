// The seven entries as a host program in C or Rust reaches them: numbers and byte slices, each slice a pointer and its length. Each calls the
// function of its name in the crate flex and promises the same; nothing else stands here. The prototypes are in host/flex.h, the archive is
// libflex.a. The C interface needs the numbers and the row of parameters as they are.
#![tactic(auto)]

ghost use Rattle.flex.specs.Promised.{PresetPromise, ExtensionPromise, CallPromise, CensusPromise, TextPromise, FormatPromise, RepairPromise};

// Preset: the answer.
#[unsafe(no_mangle)]
pub extern "C" fn flex_preset(table: &mut [u8], fcb: usize, offset: usize, value: u8) -> u32
    ensures { PresetPromise table.old fcb offset value result table.new }
{
    flex::flex_preset(table, fcb, offset, value)
}

// Default extension: the answer.
#[unsafe(no_mangle)]
pub extern "C" fn flex_extension(table: &mut [u8], fcb: usize, code: usize) -> u32
    ensures { ExtensionPromise table.old fcb code result table.new }
{
    flex::flex_extension(table, fcb, code)
}

// The FMS call: 256 times the answer plus the byte.
#[unsafe(no_mangle)]
pub extern "C" fn flex_call(image: &mut [u8], table: &mut [u8], fcb: usize, byte: u8) -> u32
    ensures { CallPromise image.old table.old fcb byte result image.new table.new }
{
    flex::flex_call(image, table, fcb, byte)
}

// The census: the answer, and both outputs as bytes, two an entry.
#[unsafe(no_mangle)]
pub extern "C" fn flex_census(image: &[u8], sectors: &mut [u8], owners: &mut [u8]) -> u32
    ensures { CensusPromise image.now sectors.old owners.old result sectors.new owners.new }
{
    flex::flex_census(image, sectors, owners)
}

// The error text: the answer.
#[unsafe(no_mangle)]
pub extern "C" fn flex_error_text(text: &mut [u8], number: u8) -> u32
    ensures { TextPromise text.old number result text.new }
{
    flex::flex_error_text(text, number)
}

// Format: the answer.
#[unsafe(no_mangle)]
pub extern "C" fn flex_format(
    image: &mut [u8],
    last: usize,
    per: usize,
    label: &[u8],
    volume: u16,
    month: u8,
    day: u8,
    year: u8,
) -> u32
    ensures { FormatPromise image.old last per label.now volume month day year result image.new }
{
    flex::flex_format(image, last, per, label, volume, month, day, year)
}

// Repair: the answer.
#[unsafe(no_mangle)]
pub extern "C" fn flex_repair(image: &mut [u8], table: &[u8]) -> u32
    ensures { RepairPromise image.old table.now result image.new }
{
    flex::flex_repair(image, table)
}
