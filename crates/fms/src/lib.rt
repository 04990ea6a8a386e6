// The FMS call: the checks that every call makes in order, and the function that a block asks for.
// The table and f stay two parameters: why is told in `blocks`.
#![tactic(auto)]

ghost use Rattle.std.specs.Prelude.{◌≡◌, [], ◌+◌, ◌*◌, ◌<◌};
ghost use Rattle.rules.specs.Refusals.{code, number_of, byte_of};
ghost use Rattle.rules.specs.Outcome.{out, left, settled, refuse};
ghost use Rattle.rules.specs.Block.{block_at, function_in};
ghost use Rattle.rules.specs.Transfer.{transfer};
ghost use Rattle.rules.specs.Call.{call, asked, perform};
ghost use Rattle.fms.specs.Functions.{function_byte};
ghost use Rattle.fms.specs.Steps.{Checked, on_shape};

use blocks::{Activity, refuse_with};
use cells::get_in;
use disk::{Shape, shape_of};
use files::{
    delete, next_slot, open_directory, open_read, open_write, read_sector, rename, rewind,
};
use function::Function;
use raw::{put_slot, write_sector};
use rules::block::{ACTIVITY, BLOCK_LENGTH, BLOCKS, DRIVE, FUNCTION, TABLE_LENGTH};
use rules::refusal::Refusal;
use transfer::{close, read, write};

mod function;

// A refusal that the block is told of.
fn refused(table: &mut [u8], f: u16, e: Refusal) -> Result<u8, Refusal>
    ensures { out (number_of result) (byte_of result) [] table.new ≡ left [] table.old f (settled (refuse (code e))) }
{
    Err(refuse_with(table, f, e))
}

// The answer of a function that returns no byte.
fn plain(answer: Result<(), Refusal>) -> Result<u8, Refusal>
    ensures { (number_of result ≡ number_of answer) × (byte_of result ≡ 0) }
{
    match answer {
        Ok(()) => Ok(0),
        Err(e) => Err(e),
    }
}

// Function 0: a block that reads gets a byte, one that writes sends it.
fn transfer_byte(
    image: &mut [u8],
    table: &mut [u8],
    shape: Shape,
    f: u16,
    byte: u8,
) -> Result<u8, Refusal>
    ensures { out (number_of result) (byte_of result) image.new table.new ≡ left image.old table.old f (settled (transfer image.old table.old shape.last shape.per f byte)) }
{
    if get_in(table, f as usize, ACTIVITY) == Activity::Reading as u8 {
        return read(image, table, shape, f);
    }
    plain(write(image, table, shape, f, byte))
}

// The block's function.
fn perform_by(
    image: &mut [u8],
    table: &mut [u8],
    shape: Shape,
    f: u16,
    byte: u8,
    function: Function,
) -> Result<u8, Refusal>
    requires { function_byte function ≡ function_in table.old f }
    ensures { out (number_of result) (byte_of result) image.new table.new ≡ left image.old table.old f (settled (perform image.old table.old shape.last shape.per f byte)) }
{
    match function {
        Function::Transfer => transfer_byte(image, table, shape, f, byte),
        Function::OpenRead => plain(open_read(image, table, shape, f)),
        Function::OpenWrite => plain(open_write(image, table, shape, f)),
        Function::Close => plain(close(image, table, shape, f)),
        Function::Rewind => {
            rewind(table, f);
            Ok(0)
        }
        Function::OpenDirectory => {
            open_directory(table, f);
            Ok(0)
        }
        Function::NextSlot => plain(next_slot(image, table, shape, f)),
        Function::PutSlot => plain(put_slot(image, table, shape, f)),
        Function::ReadSector => plain(read_sector(image, table, shape, f)),
        Function::WriteSector => plain(write_sector(image, table, shape, f)),
        Function::Delete => plain(delete(image, table, shape, f)),
        Function::Rename => plain(rename(image, table, shape, f)),
    }
}

// The function that the block that begins at f asks for, or the refusal of the first check that it fails.
fn checked(table: &[u8], f: u16) -> Result<Function, Refusal>
    ensures { Checked table.now f result }
{
    let function = Function::try_from(get_in(table, f as usize, FUNCTION))?;
    if get_in(table, f as usize, DRIVE) != 0 {
        return Err(Refusal::NoDiskette);
    }
    let act = get_in(table, f as usize, ACTIVITY);
    if !function.takes(act) {
        return Err(function.misfit(act));
    }
    Ok(function)
}

// The checks behind that of the shape.
fn on_shape(
    image: &mut [u8],
    table: &mut [u8],
    shape: Shape,
    f: u16,
    byte: u8,
) -> Result<u8, Refusal>
    ensures { out (number_of result) (byte_of result) image.new table.new ≡ left image.old table.old f (settled (on_shape image.old table.old shape.last shape.per f byte)) }
{
    match checked(table, f) {
        Ok(function) => perform_by(image, table, shape, f, byte, function),
        Err(e) => refused(table, f, e),
    }
}

// What the block that begins at f asks for.
fn on_block(image: &mut [u8], table: &mut [u8], f: u16, byte: u8) -> Result<u8, Refusal>
    ensures { out (number_of result) (byte_of result) image.new table.new ≡ left image.old table.old f (settled (asked image.old table.old f byte)) }
{
    match shape_of(image) {
        Some(shape) => on_shape(image, table, shape, f, byte),
        None => refused(table, f, Refusal::NoDiskette),
    }
}

// The FMS call on block `fcb`, with a byte to be written.
pub fn call(image: &mut [u8], table: &mut [u8], fcb: usize, byte: u8) -> Result<u8, Refusal>
    ensures { out (number_of result) (byte_of result) image.new table.new ≡ left image.old table.old (block_at fcb) (call image.old table.old fcb byte) }
{
    if table.len() != TABLE_LENGTH {
        return Err(Refusal::NoBlock);
    }
    if fcb >= BLOCKS {
        return Err(Refusal::NoBlock);
    }
    on_block(image, table, (BLOCK_LENGTH * fcb) as u16, byte)
}
