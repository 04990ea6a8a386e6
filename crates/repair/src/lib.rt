// Repair, in the lent image: a mark for each data sector that is the directory's or that a file keeps; the files slot by slot, then the
// free chain from the last sector down.
#![tactic(auto)]

ghost use Rattle.std.specs.Prelude.{◌≡◌, true, ◌+◌, ◌*◌, ◌<◌, ◌≤◌, length, eqb, ltb};
ghost use Rattle.rules.specs.Bytes.{pick};
ghost use Rattle.rules.specs.Directory.{directory_right, directory, map_at};
ghost use Rattle.rules.specs.Block.{blocks};
ghost use Rattle.rules.specs.Refusals.{number_of};
ghost use Rattle.rules.specs.Outcome.{told};
ghost use Rattle.rules.specs.Repair.{all_closed, mended, repair};
ghost use Rattle.laws.specs.Visits.{most_slots, first_slot};
ghost use Rattle.repair.specs.Passes.{with_mark, with_marks, is_open, walked, walk, slot_mended, worked, file_mended, files_mended, chained, before, in_front, no_free, chaining, free_mended, tried};

use cells::{entry, fill, get, get2, place, store};
use chainwalk::number;
use directory::{directory_right, is_live, most_slots, sectors, step_slot};
use disk::{Diskette, Free, Shape, link, link_of, put_free, shape_of};
use rules::block::{ACTIVITY, BLOCK_LENGTH, BLOCKS, TABLE_LENGTH};
use rules::place::FIRST_SLOT;
use rules::refusal::Refusal;
use rules::slot::{MAP, SIZE, START};
use slotwalk::has_twins;

// What a file keeps: its last sector's address, and how many there are.
#[derive(Clone, Copy)]
struct Kept {
    end: u16,
    count: u16,
}

// Are all blocks closed?
fn all_closed(table: &[u8]) -> bool
    ensures { result ≡ all_closed table.now blocks }
{
    for n in (0..BLOCKS).rev() {
        if get(table, BLOCK_LENGTH * n + ACTIVITY) != 0 {
            return false;
        }
    }
    true
}

// A sector's mark set, if it is a data sector.
fn set_mark(marks: &mut [u16], shape: Shape, k: u16)
    ensures { marks.new ≡ with_mark shape.per k marks.old }
{
    if k < shape.per as u16 {
        return;
    }
    place(marks, (k - shape.per as u16) as usize, 0, 1);
}

// The marks of the directory's sectors set.
fn mark_directory(image: &[u8], shape: Shape, marks: &mut [u16])
    ensures { marks.new ≡ with_marks shape.per (directory image.now shape.last shape.per) marks.old }
{
    for k in sectors(image, shape) {
        set_mark(marks, shape, k);
    }
}

// Is there a data sector without a mark at an address?
fn is_open(shape: Shape, marks: &[u16], a: u16) -> bool
    ensures { result ≡ is_open shape.last shape.per marks.now a }
{
    if !shape.is_data(a) {
        return false;
    }
    let n = number(shape, shape.index_of(a));
    entry(marks, n as usize, 0) == 0
}

// What a file keeps that begins at an address and states so many sectors. Each gets its mark.
fn keep(image: &[u8], shape: Shape, start: u16, size: u16, marks: &mut [u16]) -> Kept
    ensures { walked result marks.new ≡ walk image.now shape.last shape.per size start 0 0 marks.old }
{
    let mut a = start;
    let mut end = 0u16;
    for count in 0..size {
        if !is_open(shape, marks, a) {
            return Kept { end, count };
        }
        let k = shape.index_of(a);
        set_mark(marks, shape, k);
        end = a;
        a = link_of(image, k);
    }
    Kept { end, count: size }
}

// Where a file begins that keeps so many sectors.
fn start_kept(start: u16, count: u16) -> u16
    ensures { result ≡ pick (eqb count 0) 0 start }
{
    if count == 0 { 0 } else { start }
}

// Byte 23's place in the slot of a file that keeps so many of the sectors that it states.
fn map_kept(image: &[u8], slot: u32, size: u16, count: u16) -> u8
    ensures { result ≡ pick (ltb count size) 0 (map_at image.now slot) }
{
    if count < size {
        0
    } else {
        get(image, slot as usize + MAP)
    }
}

// Start, end, size and byte 23's place of a slot set to what is kept, by one store; then the last link.
fn mend_slot(image: &mut [u8], shape: Shape, slot: u32, start: u16, size: u16, kept: Kept)
    ensures { image.new ≡ slot_mended image.old shape.per slot start size kept }
{
    let count = kept.count;
    let first = start_kept(start, count);
    let map = map_kept(image, slot, size, count);
    let [start_high, start_low] = first.to_be_bytes();
    let [end_high, end_low] = kept.end.to_be_bytes();
    let [size_high, size_low] = count.to_be_bytes();
    let record = [
        start_high, start_low, end_high, end_low, size_high, size_low, map,
    ];
    store(image, slot as usize + START, &record);
    let k = shape.index_of(kept.end);
    link(image, count == 0, k, 0);
}

// A slot's file mended, if the slot is live.
fn mend_file(image: &mut [u8], shape: Shape, slot: u32, marks: &mut [u16])
    ensures { worked image.new marks.new ≡ file_mended image.old shape.last shape.per slot marks.old }
{
    if !is_live(image, slot) {
        return;
    }
    let start = get2(image, slot as usize + START);
    let size = get2(image, slot as usize + SIZE);
    let kept = keep(image, shape, start, size, marks);
    mend_slot(image, shape, slot, start, size, kept);
}

// The files of all slots mended, in the directory's order. No store changes a link of the directory, which the way to the next slot goes by.
fn mend_files(image: &mut [u8], shape: Shape, marks: &mut [u16])
    ensures { worked image.new marks.new ≡ files_mended shape.last shape.per (most_slots shape.last shape.per) first_slot image.old marks.old }
{
    let mut slot = FIRST_SLOT;
    for _ in 0..most_slots(shape) {
        mend_file(image, shape, slot, marks);
        match step_slot(image, shape, slot) {
            Ok(behind) => slot = behind,
            Err(_) => return,
        }
    }
}

// The last address of a chain before which a sector is put.
fn end_of(free: Free, a: u16) -> u16
    ensures { result ≡ pick (eqb free.count 0) a free.last }
{
    if free.count == 0 { a } else { free.last }
}

// A sector of the diskette put before a free chain: its link set, and the chain then.
fn put_before(image: &mut [u8], shape: Shape, k: u16, free: Free) -> Free
    requires { (k < (shape.last + 1) * shape.per) × (free.count < 65535) }
    ensures { chained result image.new ≡ before shape.per k free image.old }
{
    link(image, false, k, free.first);
    let a = shape.address_of(k as u32) as u16;
    let end = end_of(free, a);
    Free {
        first: a,
        last: end,
        count: free.count + 1,
    }
}

// The data sector with this number put before a free chain, if it has no mark.
fn put_open(image: &mut [u8], shape: Shape, marks: &[u16], n: u16, free: Free) -> Free
    requires { (n < shape.last * shape.per) × (free.count < 65535) }
    ensures { chained result image.new ≡ in_front shape.per marks.now n free image.old }
{
    if entry(marks, n as usize, 0) != 0 {
        return free;
    }
    put_before(image, shape, shape.per as u16 + n, free)
}

// All data sectors without a mark linked, each to the next, from the last down: the chain that they form.
fn link_free(image: &mut [u8], shape: Shape, marks: &[u16]) -> Free
    ensures { chained result image.new ≡ chaining shape.per marks.now (shape.last * shape.per) no_free image.old }
{
    let mut free = Free::default();
    for n in (0..shape.data_sectors()).rev() {
        free = put_open(image, shape, marks, n, free);
    }
    free
}

// The free chain made anew, and the information record's six bytes that tell it.
fn mend_free(image: &mut [u8], shape: Shape, marks: &[u16])
    ensures { image.new ≡ free_mended shape.last shape.per marks.now image.old }
{
    let free = link_free(image, shape, marks);
    put_free(image, free.first, free.last, free.count);
}

// An image mended whose directory is right, with a mark for each data sector.
fn mend(image: &mut [u8], d: Diskette, marks: &mut [u16])
    requires { (directory_right image.old d.shape.last d.shape.per ≡ true) × (length marks.old ≡ d.shape.last * d.shape.per) }
    ensures { image.new ≡ mended image.old d.shape.last d.shape.per }
{
    fill(marks, 0);
    mark_directory(image, d.shape, marks);
    mend_files(image, d.shape, marks);
    mend_free(image, d.shape, marks);
}

// Directory and names, 42 and 43, before that. The marks are lent for a table of names first.
fn tried(image: &mut [u8], d: Diskette, marks: &mut [u16]) -> Result<(), Refusal>
    requires { length marks.old ≡ d.shape.last * d.shape.per }
    ensures { told (number_of result) image.new ≡ tried image.old d.shape.last d.shape.per }
{
    if !directory_right(image, d.shape) {
        return Err(Refusal::WrongDirectory);
    }
    if has_twins(image, d.shape, marks) {
        return Err(Refusal::SameName);
    }
    mend(image, d, marks);
    Ok(())
}

// The same for an image of n data sectors, with room for N marks, which is cleared whole.
fn with_room<const N: usize>(image: &mut [u8], d: Diskette, n: usize) -> Result<(), Refusal>
    requires { (n ≡ d.shape.last * d.shape.per) × (n ≤ N) × (N ≤ 2844) }
    ensures { told (number_of result) image.new ≡ tried image.old d.shape.last d.shape.per }
{
    let mut marks = [0u16; N];
    tried(image, d, &mut marks[..n])
}

// The same, with room for a small diskette, which should cost little, or for any.
fn with_marks(image: &mut [u8], d: Diskette) -> Result<(), Refusal>
    ensures { told (number_of result) image.new ≡ tried image.old d.shape.last d.shape.per }
{
    let n = d.shape.data_sectors() as usize;
    if n <= 1000 {
        return with_room::<1000>(image, d, n);
    }
    with_room::<2844>(image, d, n)
}

// A lent image repaired: 13 for the table's length, 2 unless all its blocks are closed, then the census's 41 to 43. These change nothing.
pub fn repair(image: &mut [u8], table: &[u8]) -> Result<(), Refusal>
    ensures { told (number_of result) image.new ≡ repair image.old table.now }
{
    if table.len() != TABLE_LENGTH {
        return Err(Refusal::NoBlock);
    }
    if !all_closed(table) {
        return Err(Refusal::InUse);
    }
    match shape_of(image) {
        Some(shape) => with_marks(image, Diskette { shape }),
        None => Err(Refusal::WrongShape),
    }
}
