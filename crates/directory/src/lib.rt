// The directory: its sectors and its slots one by one, the search for a name and for a vacancy, places of slots.
// A directory sector is its index, a slot where it begins in the image.
#![tactic(auto)]

ghost use Rattle.std.specs.Prelude.{◌≡◌, ◌++◌, ◌+◌, ◌*◌, ◌≤◌, ◌<◌, get_or, length};
ghost use Rattle.rules.specs.Bytes.{word_at, part, over, one, two, same};
ghost use Rattle.rules.specs.Directory.{is_directory, step_to, next_of, most_of_directory, directory_right, directory, slots, live, named, find, vacancy, member, placed, place_of};
ghost use Rattle.rules.specs.Stores.{stored};
ghost use Rattle.rules.specs.Transfer.{mark};
ghost use Rattle.laws.specs.Slots.{is_displacement};
ghost use Rattle.laws.specs.Visits.{step_slot, most_slots};
ghost use Rattle.std.specs.Iterator.{YieldsFirst, item_count};
ghost use Rattle.directory.specs.Extents.{extent_of};
ghost use Rattle.directory.specs.Walks.{sectors_left, slots_left};

use cells::{get, get_in, get2, put, store};
use disk::{Shape, link_of};
use rules::place::{FIRST_SECTOR, FIRST_SLOT};
use rules::slot::SLOT_LENGTH;
use rules::{Next, NoSlot};

// How far the directory goes: its last sector, and how many sectors it has.
#[derive(Clone, Copy)]
pub struct Extent {
    pub end: u16,
    pub sectors: u16,
}

// May a directory sector have this address?
fn is_directory(shape: Shape, a: u16) -> bool
    ensures { result ≡ is_directory shape.last shape.per a }
{
    let [track, sector] = a.to_be_bytes();
    if track != 0 {
        return shape.is_data(a);
    }
    5 <= sector && sector <= shape.per
}

// What a link to this address says.
fn step_to(shape: Shape, a: u16) -> Next
    ensures { result ≡ step_to shape.last shape.per a }
{
    if a == 0 {
        return Next::End;
    }
    if !is_directory(shape, a) {
        return Next::Astray;
    }
    Next::To(shape.index_of(a))
}

// What the link of the sector k says.
pub fn next_of(image: &[u8], shape: Shape, k: u16) -> Next
    ensures { result ≡ next_of image.now shape.last shape.per k }
{
    step_to(shape, link_of(image, k))
}

// How many sectors a directory has at most: those of track 0 behind the first four, and every data sector.
pub fn most_of(shape: Shape) -> u16
    ensures { result ≡ most_of_directory shape.last shape.per }
{
    let behind = shape.last as u16 * shape.per as u16;
    if shape.per < 4 {
        return behind;
    }
    (shape.per - 4) as u16 + behind
}

// How many slots a directory has at most.
pub fn most_slots(shape: Shape) -> u32
    ensures { (result ≡ most_slots shape.last shape.per) × (result ≤ 655350) }
{
    10 * most_of(shape) as u32
}

// The directory's sectors in order: those from one on, so many at most.
#[derive(Drop)]
pub struct SectorWalk<'a> {
    image: &'a [u8],
    shape: Shape,
    left: u16,
    here: u16,
}

impl<'a> Iterator for SectorWalk<'a> {
    type Item = u16;

    ghost next_gives = { YieldsFirst sectors_left };

    ghost remaining = { item_count sectors_left };

    fn next(&mut self) -> Option<u16> {
        if self.left == 0 {
            return None;
        }
        let k = self.here;
        match next_of(self.image, self.shape, k) {
            Next::To(j) => {
                self.here = j;
                self.left -= 1;
            }
            _ => self.left = 0,
        }
        Some(k)
    }
}

// All its sectors.
pub fn sectors(image: &[u8], shape: Shape) -> SectorWalk
    ensures { (sectors_left result ≡ directory image.now shape.last shape.per) × (length (sectors_left result) ≤ 65535) }
{
    SectorWalk {
        image,
        shape,
        left: most_of(shape),
        here: FIRST_SECTOR,
    }
}

// Does the directory end within its sectors? One that is too long, or goes round, has a sector behind its last.
pub fn directory_right(image: &[u8], shape: Shape) -> bool
    ensures { result ≡ directory_right image.now shape.last shape.per }
{
    match sectors(image, shape).last() {
        None => false,
        Some(k) => matches!(next_of(image, shape, k), Next::End),
    }
}

// Its last sector and its length, by one walk.
pub fn extent_of(image: &[u8], shape: Shape) -> Extent
    ensures { result ≡ extent_of image.now shape.last shape.per }
{
    let mut end = FIRST_SECTOR;
    let mut count = 0u16;
    for k in sectors(image, shape) {
        end = k;
        count += 1;
    }
    Extent {
        end,
        sectors: count,
    }
}

// The directory's slots in order: those from one on to the end of its sector, and those of so many sectors behind it at most. Where none is
// left it stands at 0, which is no slot. A copy goes over the same slots. It is not one type with `SectorWalk`: the items have two widths and
// the steps two results, and the bounds that one type would need are more than what is shared. It counts sectors and not slots: with a count
// of slots a pass over slots that hold nothing takes 1.6 times the instructions, and a census of 1x36 misses its aim.
#[derive(Clone, Copy)]
pub struct SlotWalk<'a> {
    image: &'a [u8],
    shape: Shape,
    left: u16,
    here: u32,
}

impl<'a> Iterator for SlotWalk<'a> {
    type Item = u32;

    ghost next_gives = { YieldsFirst slots_left };

    ghost remaining = { item_count slots_left };

    fn next(&mut self) -> Option<u32> {
        let slot = self.here;
        if slot == 0 {
            return None;
        }
        if slot % 256 < 232 {
            self.here = slot + SLOT_LENGTH as u32;
            return Some(slot);
        }
        if self.left == 0 {
            self.here = 0;
            return Some(slot);
        }
        match step_slot(self.image, self.shape, slot) {
            Ok(behind) => {
                self.here = behind;
                self.left -= 1;
            }
            Err(_) => self.here = 0,
        }
        Some(slot)
    }
}

// All its slots.
pub fn slots(image: &[u8], shape: Shape) -> SlotWalk
    ensures { (slots_left result ≡ slots image.now shape.last shape.per) × (length (slots_left result) ≤ 655350) }
{
    match most_of(shape).checked_sub(1) {
        Some(left) => SlotWalk {
            image,
            shape,
            left,
            here: FIRST_SLOT,
        },
        None => SlotWalk {
            image,
            shape,
            left: 0,
            here: 0,
        },
    }
}

// The byte that says what a slot is.
fn first_byte(image: &[u8], slot: u32) -> u8
    ensures { result ≡ get_or image.now slot 0 }
{
    get(image, slot as usize)
}

// Is a slot live?
pub fn is_live(image: &[u8], slot: u32) -> bool
    ensures { result ≡ live image.now slot }
{
    let b = first_byte(image, slot);
    b != 0 && b < 128
}

// Are a slot's first eleven bytes those at a place of the table?
pub fn same_name(image: &[u8], slot: u32, table: &[u8], at: usize) -> bool
    ensures { result ≡ same (part image.now slot 11) (part table.now at 11) }
{
    (0..11).all(|i| get_in(image, slot as usize, i) == get_in(table, at, i))
}

// Two letters of the name at a place of the table, from its i-th on, as a number.
fn letters(table: &[u8], at: usize, i: u8) -> u16
    ensures { result ≡ word_at table.now (at + i) }
{
    u16::from_be_bytes([
        get_in(table, at, i as usize),
        get_in(table, at, i as usize + 1),
    ])
}

// Is a slot live with the name at a place of the table? Nearly all names differ in the letters 7 and 8 or in 3 and 4: these are
// looked at first, and those of the table are read once for all slots.
fn is_named(image: &[u8], slot: u32, table: &[u8], at: usize, end: u16, third: u16) -> bool
    requires { (end ≡ word_at table.now (at + 6)) × (third ≡ word_at table.now (at + 2)) }
    ensures { result ≡ named image.now (part table.now at 11) slot }
{
    if get2(image, slot as usize + 6) != end {
        return false;
    }
    if get2(image, slot as usize + 2) != third {
        return false;
    }
    is_live(image, slot) && same_name(image, slot, table, at)
}

// The slot with the name at a place of the table.
pub fn find(image: &[u8], shape: Shape, table: &[u8], at: usize) -> Result<u32, NoSlot>
    ensures { result ≡ find image.now shape.last shape.per (part table.now at 11) }
{
    if !directory_right(image, shape) {
        return Err(NoSlot::Broken);
    }
    let end = letters(table, at, 6);
    let third = letters(table, at, 2);
    slots(image, shape)
        .find(|slot| is_named(image, *slot, table, at, end, third))
        .ok_or(NoSlot::Missing)
}

// The first slot that is not live. This scan looks at no name.
pub fn vacancy(image: &[u8], shape: Shape) -> Result<u32, NoSlot>
    ensures { result ≡ vacancy image.now shape.last shape.per }
{
    if !directory_right(image, shape) {
        return Err(NoSlot::Broken);
    }
    slots(image, shape)
        .find(|slot| !is_live(image, *slot))
        .ok_or(NoSlot::Missing)
}

// Is x one of the directory's sectors?
fn is_member(image: &[u8], shape: Shape, x: u16) -> bool
    ensures { result ≡ member x (directory image.now shape.last shape.per) }
{
    sectors(image, shape).any(|k| k == x)
}

// Does a slot of a sector begin at this displacement?
fn is_displacement(d: u8) -> bool
    ensures { result ≡ is_displacement d }
{
    16 <= d && d <= 232 && (d - 16) % SLOT_LENGTH as u8 == 0
}

// The slot at an address and a displacement.
pub fn placed(image: &[u8], shape: Shape, a: u16, d: u8) -> Result<u32, NoSlot>
    ensures { result ≡ placed image.now shape.last shape.per (two a ++ one d) }
{
    if !directory_right(image, shape) {
        return Err(NoSlot::Broken);
    }
    let k = shape.index_of(a);
    if !is_member(image, shape, k) {
        return Err(NoSlot::Missing);
    }
    let own = shape.address_of(k as u32);
    if own != a as usize {
        return Err(NoSlot::Missing); // no address of a sector, though its numbers give the index of one
    }
    if !is_displacement(d) {
        return Err(NoSlot::Missing);
    }
    Ok(256 * k as u32 + d as u32)
}

// The slot behind a slot: the next of its sector, or the first of the next sector.
pub fn step_slot(image: &[u8], shape: Shape, slot: u32) -> Result<u32, NoSlot>
    ensures { result ≡ step_slot image.now shape.last shape.per slot }
{
    if slot % 256 < 232 {
        return Ok(slot + SLOT_LENGTH as u32);
    }
    let a = get2(image, 256 * (slot as usize / 256));
    match step_to(shape, a) {
        Next::End => Err(NoSlot::Missing),
        Next::Astray => Err(NoSlot::Broken),
        Next::To(k) => Ok(256 * k as u32 + 16),
    }
}

// A slot's place stored.
pub fn put_place(table: &mut [u8], at: usize, shape: Shape, slot: u32)
    ensures { table.new ≡ over table.old at (place_of shape.per slot) }
{
    let [.., track, sector] = shape.address_of(slot / 256).to_be_bytes();
    let [.., displacement] = slot.to_be_bytes();
    store(table, at, &[track, sector, displacement]);
}

// A slot marked as deleted.
pub fn mark(image: &mut [u8], slot: u32)
    ensures { image.new ≡ stored image.old (mark slot) }
{
    put(image, slot as usize, 255);
}
