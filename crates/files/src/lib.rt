// The functions on whole files and on the directory: open for reading and for writing, rewind, open directory, next slot, read
// sector, delete, rename, on the block that begins at f. Each loads, tests in the rules' order and stores; byte 1 is the last store.
// The table and f stay two parameters: why is told in `blocks`.
#![tactic(auto)]

ghost use Rattle.std.specs.Prelude.{◌≡◌, [], true};
ghost use Rattle.rules.specs.Bytes.{zeros, same};
ghost use Rattle.rules.specs.Stores.{stored, puts};
ghost use Rattle.rules.specs.Refusals.{number_of};
ghost use Rattle.rules.specs.Outcome.{out, left, settled};
ghost use Rattle.rules.specs.Block.{place_in};
ghost use Rattle.rules.specs.Files.{open_read, grow, open_write, rewind, open_directory, shown, next_slot, read_sector, delete, rename};
ghost use Rattle.blocks.specs.Activities.{activity_byte};
ghost use Rattle.files.specs.Parts.{opening, open_read_at, open_write_at, add_stores, growth, open_write_new, first_slot, slot_after, further_slot, delete_at, renamed, rename_at};

use blocks::{Activity, in_use, refuse_with};
use cells::{clear, copy, get, get2, put, put2, store};
use directory::{directory_right, extent_of, find, most_of, put_place, step_slot, vacancy};
use disk::{Shape, link, load_sector};
use entries::{Protection, bytes_at, is_protected, new_entry, put_entry};
use names::legal_name;
use removal::remove;
use rules::NoSlot;
use rules::block::{
    ACTIVITY, BUFFER, COMPRESSION, ERROR, FUNCTION, INDEX, NAME, NEW_NAME, PLACE, POSITION,
};
use rules::place::FIRST_SLOT;
use rules::refusal::Refusal;
use rules::slot::SLOT_LENGTH;
use taking::{free_sector, slot_of, take_off};

// What opening stores behind the entry.
fn open_block(table: &mut [u8], shape: Shape, f: u16, activity: Activity, slot: u32)
    ensures { table.new ≡ puts table.old f (opening shape.per (activity_byte activity) slot) }
{
    put(table, f as usize + FUNCTION, 0);
    clear(table, f as usize + POSITION, 6);
    put(table, f as usize + ACTIVITY, activity.byte());
    put_place(table, f as usize + PLACE, shape, slot);
    put(table, f as usize + COMPRESSION, 255);
    put(table, f as usize + ERROR, 0);
}

// A slot opened for reading.
fn open_read_at(
    image: &[u8],
    table: &mut [u8],
    shape: Shape,
    f: u16,
    slot: u32,
) -> Result<(), Refusal>
    ensures { out (number_of result) 0 image.now table.new ≡ left image.now table.old f (settled (open_read_at image.now table.old shape.per slot)) }
{
    if is_protected(image, slot, Protection::Read) {
        return Err(refuse_with(table, f, Refusal::ReadProtected));
    }
    if in_use(false, table, shape, slot) {
        return Err(refuse_with(table, f, Refusal::InUse)); // it is being written
    }
    copy(table, f as usize + NAME, image, slot as usize, SLOT_LENGTH);
    open_block(table, shape, f, Activity::Reading, slot);
    Ok(())
}

// 1 open read.
pub fn open_read(image: &[u8], table: &mut [u8], shape: Shape, f: u16) -> Result<(), Refusal>
    ensures { out (number_of result) 0 image.now table.new ≡ left image.now table.old f (settled (open_read image.now table.old shape.last shape.per f)) }
{
    if !legal_name(table, f as usize + NAME) {
        return Err(refuse_with(table, f, Refusal::BadName));
    }
    match find(image, shape, table, f as usize + NAME) {
        Ok(slot) => open_read_at(image, table, shape, f, slot),
        Err(NoSlot::Missing) => Err(refuse_with(table, f, Refusal::NotFound)),
        Err(NoSlot::Broken) => Err(refuse_with(table, f, Refusal::NoDirectory)),
    }
}

// A new entry in a slot, opened for writing.
fn open_write_at(image: &mut [u8], table: &mut [u8], shape: Shape, f: u16, slot: u32)
    ensures { out 0 0 image.new table.new ≡ left image.old table.old f (settled (open_write_at table.old shape.per f slot)) }
{
    let entry = new_entry(table, f);
    put_entry(image, slot, entry);
    put_entry(table, f as u32 + 4, entry);
    open_block(table, shape, f, Activity::Writing, slot);
}

// A sector more for the directory, behind its last one: off the free chain, cleared, linked. Both sectors were read off the image
// before, for on a damaged one a store may change what says where they are.
fn add_sector(image: &mut [u8], shape: Shape, end: u16, new: u16)
    ensures { image.new ≡ stored image.old (add_stores image.old shape.per end new) }
{
    let k = shape.index_of(new);
    take_off(image, shape);
    clear(image, 256 * k as usize, 256);
    link(image, false, end, new);
}

// The free sector by which a directory of so many sectors grows, or why it does not.
fn growth(image: &[u8], shape: Shape, sectors: u16) -> Result<u16, Refusal>
    ensures { result ≡ growth image.now shape.last shape.per sectors }
{
    let new = free_sector(image, shape)?;
    if sectors < most_of(shape) {
        Ok(new)
    } else {
        Err(Refusal::BadWrite)
    }
}

// The directory grown by a sector, whose first slot is opened for writing.
fn grow(image: &mut [u8], table: &mut [u8], shape: Shape, f: u16) -> Result<(), Refusal>
    ensures { out (number_of result) 0 image.new table.new ≡ left image.old table.old f (settled (grow image.old table.old shape.last shape.per f)) }
{
    let extent = extent_of(image, shape);
    match growth(image, shape, extent.sectors) {
        Ok(new) => {
            let k = shape.index_of(new);
            add_sector(image, shape, extent.end, new);
            open_write_at(image, table, shape, f, 256 * k as u32 + 16);
            Ok(())
        }
        Err(e) => Err(refuse_with(table, f, e)),
    }
}

// A slot for a new name, opened for writing.
fn open_write_new(image: &mut [u8], table: &mut [u8], shape: Shape, f: u16) -> Result<(), Refusal>
    ensures { out (number_of result) 0 image.new table.new ≡ left image.old table.old f (settled (open_write_new image.old table.old shape.last shape.per f)) }
{
    match vacancy(image, shape) {
        Ok(slot) => {
            open_write_at(image, table, shape, f, slot);
            Ok(())
        }
        Err(NoSlot::Missing) => grow(image, table, shape, f),
        Err(NoSlot::Broken) => Err(refuse_with(table, f, Refusal::NoDirectory)),
    }
}

// 2 open write.
pub fn open_write(image: &mut [u8], table: &mut [u8], shape: Shape, f: u16) -> Result<(), Refusal>
    ensures { out (number_of result) 0 image.new table.new ≡ left image.old table.old f (settled (open_write image.old table.old shape.last shape.per f)) }
{
    if !legal_name(table, f as usize + NAME) {
        return Err(refuse_with(table, f, Refusal::BadName));
    }
    match find(image, shape, table, f as usize + NAME) {
        Ok(_) => Err(refuse_with(table, f, Refusal::Exists)),
        Err(NoSlot::Missing) => open_write_new(image, table, shape, f),
        Err(NoSlot::Broken) => Err(refuse_with(table, f, Refusal::NoDirectory)),
    }
}

// 5 rewind.
pub fn rewind(table: &mut [u8], f: u16)
    ensures { out 0 0 [] table.new ≡ left [] table.old f (settled rewind) }
{
    put(table, f as usize + FUNCTION, 0);
    put2(table, f as usize + POSITION, 0);
    put(table, f as usize + INDEX, 0);
    put(table, f as usize + ERROR, 0);
}

// 6 open directory.
pub fn open_directory(table: &mut [u8], f: u16)
    ensures { out 0 0 [] table.new ≡ left [] table.old f (settled open_directory) }
{
    put(table, f as usize + ACTIVITY, Activity::Directory as u8);
    clear(table, f as usize + PLACE, 3);
    put(table, f as usize + ERROR, 0);
}

// A slot shown in the block, and its place.
fn show(image: &[u8], table: &mut [u8], shape: Shape, f: u16, slot: u32)
    ensures { out 0 0 image.now table.new ≡ left image.now table.old f (settled (shown image.now shape.per slot)) }
{
    put_place(table, f as usize + PLACE, shape, slot);
    copy(table, f as usize + NAME, image, slot as usize, SLOT_LENGTH);
    put(table, f as usize + ERROR, 0);
}

// Is the block's place 0,0,0?
fn is_before_first(table: &[u8], f: u16) -> bool
    ensures { result ≡ same (place_in table.now f) (zeros 3) }
{
    let place: [u8; 3] = bytes_at(table, f as usize + PLACE);
    place == [0; 3]
}

// The directory's first slot shown.
fn first_slot(image: &[u8], table: &mut [u8], shape: Shape, f: u16) -> Result<(), Refusal>
    ensures { out (number_of result) 0 image.now table.new ≡ left image.now table.old f (settled (first_slot image.now shape.last shape.per)) }
{
    if !directory_right(image, shape) {
        return Err(refuse_with(table, f, Refusal::NoDirectory));
    }
    show(image, table, shape, f, FIRST_SLOT);
    Ok(())
}

// The slot behind a slot shown.
fn slot_after(
    image: &[u8],
    table: &mut [u8],
    shape: Shape,
    f: u16,
    slot: u32,
) -> Result<(), Refusal>
    ensures { out (number_of result) 0 image.now table.new ≡ left image.now table.old f (settled (slot_after image.now shape.last shape.per slot)) }
{
    match step_slot(image, shape, slot) {
        Ok(after) => {
            show(image, table, shape, f, after);
            Ok(())
        }
        Err(NoSlot::Missing) => Err(refuse_with(table, f, Refusal::AtEnd)),
        Err(NoSlot::Broken) => Err(refuse_with(table, f, Refusal::NoDirectory)),
    }
}

// The slot behind the block's place shown.
fn further_slot(image: &[u8], table: &mut [u8], shape: Shape, f: u16) -> Result<(), Refusal>
    ensures { out (number_of result) 0 image.now table.new ≡ left image.now table.old f (settled (further_slot image.now table.old shape.last shape.per f)) }
{
    match slot_of(image, table, shape, f) {
        Ok(slot) => slot_after(image, table, shape, f, slot),
        Err(_) => Err(refuse_with(table, f, Refusal::NoDirectory)),
    }
}

// 7 next slot.
pub fn next_slot(image: &[u8], table: &mut [u8], shape: Shape, f: u16) -> Result<(), Refusal>
    ensures { out (number_of result) 0 image.now table.new ≡ left image.now table.old f (settled (next_slot image.now table.old shape.last shape.per f)) }
{
    if is_before_first(table, f) {
        return first_slot(image, table, shape, f);
    }
    further_slot(image, table, shape, f)
}

// 9 read sector.
pub fn read_sector(image: &[u8], table: &mut [u8], shape: Shape, f: u16) -> Result<(), Refusal>
    ensures { out (number_of result) 0 image.now table.new ≡ left image.now table.old f (settled (read_sector image.now table.old shape.last shape.per f)) }
{
    let a = get2(table, f as usize + POSITION);
    if !shape.is_sector(a) {
        return Err(refuse_with(table, f, Refusal::BadRead));
    }
    load_sector(table, f as usize + BUFFER, image, shape.index_of(a));
    put(table, f as usize + ERROR, 0);
    Ok(())
}

// A file deleted, once its slot is found.
fn delete_at(
    image: &mut [u8],
    table: &mut [u8],
    shape: Shape,
    f: u16,
    slot: u32,
) -> Result<(), Refusal>
    ensures { out (number_of result) 0 image.new table.new ≡ left image.old table.old f (settled (delete_at image.old table.old shape.last shape.per slot)) }
{
    let open = in_use(true, table, shape, slot);
    if open {
        return Err(refuse_with(table, f, Refusal::InUse));
    }
    if is_protected(image, slot, Protection::Delete) {
        return Err(refuse_with(table, f, Refusal::DeleteProtected));
    }
    if is_protected(image, slot, Protection::Write) {
        return Err(refuse_with(table, f, Refusal::WriteProtected));
    }
    remove(image, table, shape, f, slot)
}

// 12 delete.
pub fn delete(image: &mut [u8], table: &mut [u8], shape: Shape, f: u16) -> Result<(), Refusal>
    ensures { out (number_of result) 0 image.new table.new ≡ left image.old table.old f (settled (delete image.old table.old shape.last shape.per f)) }
{
    if !legal_name(table, f as usize + NAME) {
        return Err(refuse_with(table, f, Refusal::BadName));
    }
    match find(image, shape, table, f as usize + NAME) {
        Ok(slot) => delete_at(image, table, shape, f, slot),
        Err(NoSlot::Missing) => Err(refuse_with(table, f, Refusal::NotFound)),
        Err(NoSlot::Broken) => Err(refuse_with(table, f, Refusal::NoDirectory)),
    }
}

// The new name stored in slot and block.
fn store_name(image: &mut [u8], table: &mut [u8], f: u16, slot: u32)
    ensures { out 0 0 image.new table.new ≡ left image.old table.old f (settled (renamed table.old f slot)) }
{
    let name: [u8; 11] = bytes_at(table, f as usize + NEW_NAME);
    store(image, slot as usize, &name);
    store(table, f as usize + NAME, &name);
    put(table, f as usize + ERROR, 0);
}

// A file renamed, once its slot is found.
fn rename_at(
    image: &mut [u8],
    table: &mut [u8],
    shape: Shape,
    f: u16,
    slot: u32,
) -> Result<(), Refusal>
    ensures { out (number_of result) 0 image.new table.new ≡ left image.old table.old f (settled (rename_at image.old table.old shape.last shape.per f slot)) }
{
    if in_use(true, table, shape, slot) {
        return Err(refuse_with(table, f, Refusal::InUse));
    }
    if is_protected(image, slot, Protection::Write) {
        return Err(refuse_with(table, f, Refusal::WriteProtected));
    }
    match find(image, shape, table, f as usize + NEW_NAME) {
        Ok(_) => Err(refuse_with(table, f, Refusal::Exists)), // its own name too
        Err(NoSlot::Missing) => {
            store_name(image, table, f, slot);
            Ok(())
        }
        Err(NoSlot::Broken) => Err(refuse_with(table, f, Refusal::NoDirectory)),
    }
}

// 13 rename.
pub fn rename(image: &mut [u8], table: &mut [u8], shape: Shape, f: u16) -> Result<(), Refusal>
    ensures { out (number_of result) 0 image.new table.new ≡ left image.old table.old f (settled (rename image.old table.old shape.last shape.per f)) }
{
    if !legal_name(table, f as usize + NAME) {
        return Err(refuse_with(table, f, Refusal::BadName));
    }
    if !legal_name(table, f as usize + NEW_NAME) {
        return Err(refuse_with(table, f, Refusal::BadName));
    }
    match find(image, shape, table, f as usize + NAME) {
        Ok(slot) => rename_at(image, table, shape, f, slot),
        Err(NoSlot::Missing) => Err(refuse_with(table, f, Refusal::NotFound)),
        Err(NoSlot::Broken) => Err(refuse_with(table, f, Refusal::NoDirectory)),
    }
}
