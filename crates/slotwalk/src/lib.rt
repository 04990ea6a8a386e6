// Passes over the directory: its sectors, of which it lists those that are data sectors; and its slots: names, files' chains, owners.
// All are total.
#![tactic(auto)]

ghost use Rattle.std.specs.Prelude.{◌≡◌, false, ◌<◌, Some};
ghost use Rattle.rules.specs.Bytes.{pick, part, over, same};
ghost use Rattle.rules.specs.Directory.{live, named, directory, slots, size_at};
ghost use Rattle.rules.specs.Census.{namesake, twins};
ghost use Rattle.directory.specs.Walks.{slots_left};
ghost use Rattle.census_laws.specs.Numbered.{files_numbered};
ghost use Rattle.census_laws.specs.Table.{code_of, slot_of, mixed, first_place, place_behind, spot, entered, noted, enter, entering};
ghost use Rattle.census_laws.specs.Walks.{laid, sector, sectors, file, files};

use cells::{entry, fill, get, get2, place, run};
use census_laws::Clash;
use chainwalk::chain_at;
use directory::{SlotWalk, is_live, same_name, sectors, slots};
use disk::Shape;

// Is a slot live with the name of this one?
fn is_namesake(image: &[u8], this: u32, slot: u32) -> bool
    ensures { result ≡ named image.now (part image.now this 11) slot }
{
    is_live(image, slot) && same_name(image, slot, image, this as usize)
}

// Is this slot live, and one of those that a walk has left live with its name?
fn has_twin(image: &[u8], this: u32, mut rest: SlotWalk) -> bool
    ensures { result ≡ pick (live image.now this) (namesake image.now this (slots_left rest.entry)) false }
{
    is_live(image, this) && rest.any(|slot| is_namesake(image, this, slot))
}

// Are there two live slots with one name? Each is compared with those behind it: it takes long, and needs no room. No `for`: what is behind
// a slot is the walk itself, which the loop lends out.
fn has_pair(image: &[u8], shape: Shape) -> bool
    ensures { result ≡ twins image.now (slots image.now shape.last shape.per) }
{
    let mut walk = slots(image, shape);
    while let Some(slot) = walk.next() {
        if has_twin(image, slot, walk) {
            return true;
        }
    }
    false
}

// The code of a slot. Its entry is that and 1.
fn code_of(slot: u32) -> u32
    ensures { result ≡ code_of slot }
{
    10 * (slot / 256) + slot % 256 / 24
}

// Has the slot that an entry names the name of this one?
fn is_own(image: &[u8], e: u16, slot: u32) -> bool
    requires { 0 < e }
    ensures { result ≡ same (part image.now (slot_of e) 11) (part image.now slot 11) }
{
    let c = (e - 1) as u32;
    same_name(
        image,
        256 * (c / 10) + 24 * (c % 10) + 16,
        image,
        slot as usize,
    )
}

// A number made of a slot's name.
fn mixed(image: &[u8], slot: u32) -> usize
    ensures { result ≡ mixed (part image.now slot 11) }
{
    let at = slot as usize;
    let a = get2(image, at) as usize * 40503;
    let b = get2(image, at + 2) as usize * 30011;
    let c = get2(image, at + 4) as usize * 50021;
    let d = get2(image, at + 6) as usize * 60013;
    let e = get2(image, at + 8) as usize * 20011;
    let f = get(image, at + 10) as usize * 10007;
    a + b + c + d + e + f
}

// The place of n from which a slot's name is looked for.
fn first_place(image: &[u8], slot: u32, n: usize) -> usize
    ensures { result ≡ first_place n (part image.now slot 11) }
{
    mixed(image, slot).checked_rem(n).unwrap_or(0)
}

// The place behind a place.
fn place_behind(n: usize, at: usize) -> usize
    ensures { result ≡ place_behind n at }
{
    let behind = at.saturating_add(1);
    if behind < n { behind } else { 0 }
}

// Where a table of n entries has a slot's name.
fn spot_of(image: &[u8], slot: u32, marks: &[u16], n: usize) -> Result<usize, Clash>
    ensures { result ≡ spot image.now n marks.now (part image.now slot 11) }
{
    let mut at = first_place(image, slot, n);
    for _ in 0..n {
        let e = entry(marks, at, 0);
        if e == 0 {
            return Ok(at);
        }
        if is_own(image, e, slot) {
            return Err(Clash::Twice);
        }
        at = place_behind(n, at);
    }
    Err(Clash::Unknown)
}

// A slot's entry stored at a place, if it is a number of two bytes.
fn note(slot: u32, marks: &mut [u16], at: usize) -> Result<(), Clash>
    ensures { entered result marks.new ≡ noted slot marks.old at }
{
    let Ok(e) = u16::try_from(code_of(slot) + 1) else {
        return Err(Clash::Unknown);
    };
    place(marks, at, 0, e);
    Ok(())
}

// A slot's name entered in a table of n entries, if the slot is live.
fn enter(image: &[u8], slot: u32, marks: &mut [u16], n: usize) -> Result<(), Clash>
    ensures { entered result marks.new ≡ enter image.now n slot marks.old }
{
    if !is_live(image, slot) {
        return Ok(());
    }
    let at = spot_of(image, slot, marks, n)?;
    note(slot, marks, at)
}

// The names of all slots entered, up to one that is met again.
fn enter_all(image: &[u8], shape: Shape, marks: &mut [u16], n: usize) -> Result<(), Clash>
    ensures { entered result marks.new ≡ entering image.now n (slots image.now shape.last shape.per) marks.old }
{
    for slot in slots(image, shape) {
        enter(image, slot, marks, n)?;
    }
    Ok(())
}

// Are there two live slots with one name? By a table of names in a slice that is lent for it; where that has too few entries, each is
// compared with those behind it.
pub fn has_twins(image: &[u8], shape: Shape, marks: &mut [u16]) -> bool
    ensures { result ≡ twins image.now (slots image.now shape.last shape.per) }
{
    fill(marks, 0);
    match enter_all(image, shape, marks, marks.len()) {
        Ok(()) => false,
        Err(Clash::Twice) => true,
        Err(Clash::Unknown) => has_pair(image, shape),
    }
}

// A sector of the directory listed behind n numbers, if it is a data sector; how many there are then.
fn list_sector(shape: Shape, k: u16, out: &mut [u16], at: u16, n: u16) -> u16
    requires { n < 65535 }
    ensures { laid (Some result) out.new ≡ sector shape.per k out.old at n }
{
    if k < shape.per as u16 {
        return n;
    }
    place(out, at as usize, n as usize, k - shape.per as u16);
    n + 1
}

// The data sectors of the directory listed from a place on; how many there are.
pub fn list_directory(image: &[u8], shape: Shape, out: &mut [u16], from: u16) -> u16
    ensures { laid (Some result) out.new ≡ sectors shape.per (directory image.now shape.last shape.per) out.old from 0 }
{
    let mut n = 0u16;
    for k in sectors(image, shape) {
        n = list_sector(shape, k, out, from, n);
    }
    n
}

// A slot's file listed from a place on, if the slot is live.
fn list_file(image: &[u8], shape: Shape, slot: u32, out: &mut [u16], at: usize) -> Option<usize>
    ensures { laid result out.new ≡ file image.now shape.last shape.per slot out.old at }
{
    if !is_live(image, slot) {
        return Some(0);
    }
    chain_at(image, shape, slot, out, at)
}

// The files of all slots listed, behind so many numbers; how many there are then.
pub fn list_files(image: &[u8], shape: Shape, out: &mut [u16], from: u32) -> Option<usize>
    ensures { laid result out.new ≡ files image.now shape.last shape.per (slots image.now shape.last shape.per) out.old from }
{
    let mut n = from as usize;
    for slot in slots(image, shape) {
        n += list_file(image, shape, slot, out, n)?;
    }
    Some(n)
}

// How many sectors a slot's file has, if the slot is live.
fn held(image: &[u8], slot: u32) -> u16
    ensures { result ≡ pick (live image.now slot) (size_at image.now slot) 0 }
{
    if is_live(image, slot) {
        get2(image, slot as usize + 17)
    } else {
        0
    }
}

// The owners of all files' sectors stored from a place on: each slot's number, counted from 1, as far as an output can hold it. A diskette has
// fewer slots.
pub fn own_files(image: &[u8], shape: Shape, out: &mut [u16], from: u32)
    ensures { out.new ≡ over out.old from (files_numbered image.now 1 (slots image.now shape.last shape.per)) }
{
    let mut at = from as usize;
    let mut owner = 1u16;
    for slot in slots(image, shape) {
        let n = held(image, slot) as usize;
        run(out, at, n, owner);
        at += n;
        owner = owner.saturating_add(1);
    }
}
