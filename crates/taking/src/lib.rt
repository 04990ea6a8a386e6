// Taking the first sector off the free chain, for a file or for the directory; and taking a sector for a file that is written: all is
// loaded first, then tested in 01's order, then stored. A block begins at f.
// The table and f stay two parameters: why is told in `blocks`.
#![tactic(auto)]

ghost use Rattle.std.specs.Prelude.{◌≡◌, [], ◌∷◌, ◌+◌, ◌-◌, ◌*◌, ◌/◌, ◌%◌, eqb};
ghost use Rattle.rules.specs.Bytes.{pick, over, six};
ghost use Rattle.rules.specs.Stores.{stored, puts};
ghost use Rattle.rules.specs.Image.{index};
ghost use Rattle.rules.specs.Refusals.{number_of};
ghost use Rattle.rules.specs.Outcome.{out, left};
ghost use Rattle.rules.specs.Transfer.{off_free, slot_in, fresh, linked, take_puts, take_sector};
ghost use Rattle.taking.specs.Take.{free_sector, follows, block_of, longer_stores, take_by, taken};

use cells::{clear, get, get2, put, put2, put6};
use directory::placed;
use disk::{Shape, free_of, fresh_sector, link, link_of, put_free};
use rules::block::{BUFFER, INDEX, NUMBER, PLACE, POSITION, SIZE, START};
use rules::refusal::Refusal;
use rules::{NoSlot, slot};

// What a block says of the file that it writes.
#[derive(Clone, Copy)]
struct Block {
    pub position: u16,
    pub start: u16,
    pub size: u16,
}

// A file with one sector more: the position that was its last, the sector taken, start and size with it.
#[derive(Clone, Copy)]
struct Longer {
    pub former: u16,
    pub new: u16,
    pub start: u16,
    pub size: u16,
}

// The sector that the free chain gives: its first, or why it gives none.
pub fn free_sector(image: &[u8], shape: Shape) -> Result<u16, Refusal>
    ensures { result ≡ free_sector image.now shape.last shape.per }
{
    let free = free_of(image);
    if free.count == 0 {
        return Err(Refusal::DiskFull);
    }
    if !shape.is_data(free.first) {
        return Err(Refusal::BadWrite);
    }
    Ok(free.first)
}

// The first sector off the free chain, which then begins at that sector's link.
pub fn take_off(image: &mut [u8], shape: Shape)
    ensures { image.new ≡ stored image.old (off_free image.old shape.per ∷ []) }
{
    let free = free_of(image);
    if free.count == 1 {
        clear(image, 256 * 2 + 29, 6);
        return;
    }
    let next = link_of(image, shape.index_of(free.first));
    let count = free.count.saturating_sub(1); // 0 is refused before, by `free_sector`
    put_free(image, next, free.last, count);
}

// The slot that the block's place names.
pub fn slot_of(image: &[u8], table: &[u8], shape: Shape, f: u16) -> Result<u32, NoSlot>
    ensures { result ≡ slot_in image.now table.now shape.last shape.per f }
{
    let at = f as usize + PLACE;
    placed(image, shape, get2(table, at), get(table, at + 2))
}

// May a sector follow this position: none, or a data sector?
fn may_follow(shape: Shape, position: u16) -> bool
    ensures { result ≡ follows shape.last shape.per position }
{
    position == 0 || shape.is_data(position)
}

fn block_of(table: &[u8], f: u16) -> Block
    ensures { result ≡ block_of table.now f }
{
    Block {
        position: get2(table, f as usize + POSITION),
        start: get2(table, f as usize + START),
        size: get2(table, f as usize + SIZE),
    }
}

// The new sector stored at its address.
fn store_new(image: &mut [u8], shape: Shape, new: u16, size: u16)
    ensures { image.new ≡ over image.old (256 * index shape.per new) (fresh size) }
{
    let k = shape.index_of(new);
    fresh_sector(image, 256 * k as usize, size);
}

// The former position's link, unless that is 0,0.
fn link_former(image: &mut [u8], shape: Shape, former: u16, new: u16)
    ensures { image.new ≡ stored image.old (linked (eqb former 0) (index shape.per former) new) }
{
    let k = shape.index_of(former);
    link(image, former == 0, k, new);
}

// A slot's start, end and size.
fn put_chain(image: &mut [u8], slot: u32, file: Longer)
    ensures { image.new ≡ over image.old (slot + 13) (six file.start file.new file.size) }
{
    put6(
        image,
        slot as usize + slot::START,
        file.start,
        file.new,
        file.size,
    );
}

// The image after a sector was taken: the free chain, the new sector, the former position's link, the slot.
fn take_image(image: &mut [u8], shape: Shape, slot: u32, file: Longer)
    ensures { image.new ≡ stored image.old (longer_stores image.old shape.per slot file) }
{
    take_off(image, shape);
    store_new(image, shape, file.new, file.size);
    link_former(image, shape, file.former, file.new);
    put_chain(image, slot, file);
}

// The block after a sector was taken.
fn take_table(table: &mut [u8], f: u16, file: Longer)
    ensures { table.new ≡ puts table.old f (take_puts file.new file.start file.size) }
{
    put6(table, f as usize + START, file.start, file.new, file.size);
    fresh_sector(table, f as usize + BUFFER, file.size);
    put2(table, f as usize + POSITION, file.new);
    put2(table, f as usize + NUMBER, file.size);
    put(table, f as usize + INDEX, 4);
}

// The tests in their order, then the stores; a refusal stores nothing.
fn take_by(
    image: &mut [u8],
    table: &mut [u8],
    shape: Shape,
    f: u16,
    slot: u32,
    block: Block,
) -> Result<(), Refusal>
    ensures { out (number_of result) 0 image.new table.new ≡ left image.old table.old f (taken (take_by image.old shape.last shape.per slot block)) }
{
    if !may_follow(shape, block.position) {
        return Err(Refusal::BadWrite);
    }
    let new = free_sector(image, shape)?;
    if block.size == 65535 {
        return Err(Refusal::BadWrite);
    }
    let start = if block.start == 0 { new } else { block.start };
    let file = Longer {
        former: block.position,
        new,
        start,
        size: block.size + 1,
    };
    take_image(image, shape, slot, file);
    take_table(table, f, file);
    Ok(())
}

// A sector taken: every store of it. A refusal stores nothing, in byte 1 neither.
pub fn take_sector(image: &mut [u8], table: &mut [u8], shape: Shape, f: u16) -> Result<(), Refusal>
    ensures { out (number_of result) 0 image.new table.new ≡ left image.old table.old f (taken (take_sector image.old table.old shape.last shape.per f)) }
{
    match slot_of(image, table, shape, f) {
        Ok(slot) => {
            let block = block_of(table, f);
            take_by(image, table, shape, f, slot, block)
        }
        Err(_) => Err(Refusal::NoDirectory),
    }
}
