// Control blocks: is a slot in use by one of them? The entries preset and default extension.
// The table, and where a block begins in it, stay two parameters here and in every crate above. Tried as one struct: each contract gains
// a clause, that it still holds the same table; each read of the table as a slice gains an equation in the proof; and the struct lies in
// memory, which takes files::show from 115 instructions to 249.
#![tactic(auto)]

ghost use Rattle.std.specs.Prelude.{◌≡◌, [], ◌+◌, ◌*◌, slice_get};
ghost use Rattle.rules.specs.Bytes.{part, over, one, same};
ghost use Rattle.rules.specs.Directory.{place_of};
ghost use Rattle.rules.specs.Refusals.{code, number_of};
ghost use Rattle.rules.specs.Outcome.{out, left};
ghost use Rattle.blocks.specs.Activities.{activity_byte, Decodes};
ghost use Rattle.rules.specs.Block.{block_at, place_field, activity_in, counts, uses, in_use, idle, presettable, preset_in, preset, extensions, extension_in, extension};

use cells::{get, get_in, put, store};
use disk::Shape;
use rules::block::{ACTIVITY, BLOCK_LENGTH, BLOCKS, ERROR, EXTENSION, PLACE, TABLE_LENGTH};
use rules::refusal::Refusal;

mod activity;

pub use activity::Activity;

// The activity of the block that begins at f.
fn activity_of(table: &[u8], f: usize) -> Result<Activity, Refusal>
    ensures { Decodes (activity_in table.now f) result }
{
    Activity::try_from(get_in(table, f, ACTIVITY))
}

// Does a block of this activity count as using its place? One that writes does; one that reads only where readers count.
fn is_counted(readers: bool, activity: Activity) -> bool
    ensures { result ≡ counts readers (activity_byte activity) }
{
    match activity {
        Activity::Writing => true,
        Activity::Reading => readers,
        Activity::Closed | Activity::Directory => false,
    }
}

// Is a block's place this slot?
fn has_place(table: &[u8], shape: Shape, f: u32, slot: u32) -> bool
    ensures { result ≡ same (part table.now (f + place_field) 3) (place_of shape.per slot) }
{
    let [.., track, sector] = shape.address_of(slot / 256).to_be_bytes();
    let [.., displacement] = slot.to_be_bytes();
    let at = f as usize + PLACE;
    let place = [get(table, at), get(table, at + 1), get(table, at + 2)];
    place == [track, sector, displacement]
}

// Does block n use the slot?
fn is_user(readers: bool, table: &[u8], shape: Shape, slot: u32, n: u8) -> bool
    ensures { result ≡ uses readers table.now (place_of shape.per slot) n }
{
    let f = BLOCK_LENGTH as u32 * n as u32;
    match activity_of(table, f as usize) {
        Ok(activity) => is_counted(readers, activity) && has_place(table, shape, f, slot),
        Err(_) => false,
    }
}

// Does one of the eight blocks use the slot? `readers` is the rule's: a caller that asks whether a file may be read does not count those
// who read it. A closure in its place would bring a contract of its own to each caller.
pub fn in_use(readers: bool, table: &[u8], shape: Shape, slot: u32) -> bool
    ensures { result ≡ in_use readers table.now (place_of shape.per slot) }
{
    for n in 0..BLOCKS as u8 {
        if is_user(readers, table, shape, slot, n) {
            return true;
        }
    }
    false
}

// A refusal: its number is the answer, and all that is stored, in byte 1 of the block that begins at f.
pub fn refuse(table: &mut [u8], f: u16, e: u8) -> u8
    ensures { (result ≡ e) × (table.new ≡ over table.old (f + 1) (one e)) }
{
    put(table, f as usize + ERROR, e);
    e
}

// A refusal handed on, its number stored.
pub fn refuse_with(table: &mut [u8], f: u16, e: Refusal) -> Refusal
    ensures { (result ≡ e) × (table.new ≡ over table.old (f + 1) (one (code e))) }
{
    refuse(table, f, e.number());
    e
}

// Is the block that begins at f closed, or used for the directory?
fn is_idle(table: &[u8], f: u16) -> bool
    ensures { result ≡ idle (activity_in table.now f) }
{
    match activity_of(table, f as usize) {
        Ok(activity) => activity.is_idle(),
        Err(_) => false,
    }
}

// May the byte at this offset be preset in a block that is idle?
fn is_presettable(offset: usize) -> bool
    ensures { result ≡ presettable offset }
{
    matches!(offset, 3..=27 | 30..=31 | 53..=319)
}

// The byte preset in the block that begins at f, or the refusal.
fn preset_in(table: &mut [u8], f: u16, offset: usize, value: u8) -> Result<(), Refusal>
    ensures { out (number_of result) 0 [] table.new ≡ left [] table.old f (preset_in table.old f offset value) }
{
    if offset == 0 {
        put(table, f as usize + offset, value);
        return Ok(());
    }
    if !is_presettable(offset) {
        return Err(Refusal::Unfit);
    }
    if !is_idle(table, f) {
        return Err(Refusal::Unfit);
    }
    put(table, f as usize + offset, value);
    Ok(())
}

// One byte of a block is preset; the answer.
pub fn preset(table: &mut [u8], fcb: usize, offset: usize, value: u8) -> Result<(), Refusal>
    ensures { out (number_of result) 0 [] table.new ≡ left [] table.old (block_at fcb) (preset table.old fcb offset value) }
{
    if table.len() != TABLE_LENGTH {
        return Err(Refusal::NoBlock);
    }
    if fcb >= BLOCKS {
        return Err(Refusal::NoBlock);
    }
    preset_in(table, (BLOCK_LENGTH * fcb) as u16, offset, value)
}

// The extensions by code.
const EXTENSIONS: [[u8; 3]; 12] = [
    *b"BIN", *b"TXT", *b"CMD", *b"BAS", *b"SYS", *b"BAK", *b"SCR", *b"DAT", *b"BAC", *b"DIR",
    *b"PRT", *b"OUT",
];

// The extension with this code, where there is one.
fn extension_of(code: usize) -> Option<[u8; 3]>
    ensures { result ≡ slice_get extensions code }
{
    EXTENSIONS.get(code).copied()
}

// The extension set in the block that begins at f, where it has none.
fn extension_in(table: &mut [u8], f: u16, code: usize) -> Result<(), Refusal>
    ensures { out (number_of result) 0 [] table.new ≡ left [] table.old f (extension_in table.old f code) }
{
    let at = f as usize + EXTENSION;
    if is_idle(table, f) && get(table, at) == 0 {
        if let Some(extension) = extension_of(code) {
            store(table, at, &extension);
        }
    }
    Ok(())
}

// A block with no extension gets the one with this code; the answer.
pub fn default_extension(table: &mut [u8], fcb: usize, code: usize) -> Result<(), Refusal>
    ensures { out (number_of result) 0 [] table.new ≡ left [] table.old (block_at fcb) (extension table.old fcb code) }
{
    if table.len() != TABLE_LENGTH {
        return Err(Refusal::NoBlock);
    }
    if fcb >= BLOCKS {
        return Err(Refusal::NoBlock);
    }
    extension_in(table, (BLOCK_LENGTH * fcb) as u16, code)
}
