// Function 0, reading and writing a byte, and function 4, close. A block begins at f.
// The table and f stay two parameters: why is told in `blocks`.
#![tactic(auto)]

ghost use Rattle.std.specs.Prelude.{◌≡◌, [], ◌∷◌, ◌++◌, ◌+◌, ◌*◌, ◌%◌};
ghost use Rattle.rules.specs.Bytes.{byte_at, part, over, one};
ghost use Rattle.rules.specs.Stores.{stored, puts, put};
ghost use Rattle.rules.specs.Image.{index};
ghost use Rattle.rules.specs.Refusals.{number_of, byte_of};
ghost use Rattle.rules.specs.Outcome.{out, left, settled, and_then};
ghost use Rattle.rules.specs.Block.{index_field, buffer_field};
ghost use Rattle.rules.specs.Transfer.{next_to_read, load_puts, load, reading, take_sector, sent, fill, writing, shut, mark, close_writing, close};
ghost use Rattle.transfer.specs.Close.{close_empty, close_partial};

use blocks::{Activity, refuse_with};
use cells::{copy, get, get2, put, put2};
use directory::mark;
use disk::{Shape, load_sector, store_data};
use rules::block::{ACTIVITY, BUFFER, ERROR, INDEX, NUMBER, POSITION, START};
use rules::refusal::Refusal;
use taking::{slot_of, take_sector};

// Where the data of the sector in the buffer stands, behind link and record number.
const DATA: usize = 68;

// The address of the sector that is read next.
fn next_to_read(table: &[u8], f: u16) -> u16
    ensures { result ≡ next_to_read table.now f }
{
    let position = get2(table, f as usize + POSITION);
    if position == 0 {
        return get2(table, f as usize + START);
    }
    get2(table, f as usize + BUFFER)
}

// The block after the sector k at the address a was loaded and its first byte read.
fn load_table(image: &[u8], table: &mut [u8], f: u16, a: u16, k: u16)
    ensures { table.new ≡ puts table.old f (load_puts image.now a k ++ put 1 (one 0) ∷ []) }
{
    put2(table, f as usize + POSITION, a);
    copy(table, f as usize + NUMBER, image, 256 * k as usize + 2, 2);
    load_sector(table, f as usize + BUFFER, image, k);
    put(table, f as usize + INDEX, 5);
    put(table, f as usize + ERROR, 0);
}

// The sector at the address a loaded, and its first byte read.
fn load_at(image: &[u8], table: &mut [u8], shape: Shape, f: u16, a: u16) -> Result<u8, Refusal>
    ensures { out (number_of result) (byte_of result) image.now table.new ≡ left image.now table.old f (settled (load image.now shape.last shape.per a)) }
{
    if a == 0 {
        return Err(refuse_with(table, f, Refusal::AtEnd));
    }
    if !shape.is_data(a) {
        return Err(refuse_with(table, f, Refusal::BadRead));
    }
    let k = shape.index_of(a);
    load_table(image, table, f, a, k);
    Ok(get(image, 256 * k as usize + 4))
}

// The buffer byte at the index i, which is not 0; the index moves on.
fn next_byte(table: &mut [u8], f: u16, i: u8) -> u8
    ensures { (result ≡ byte_at table.old (f + (buffer_field + i))) × (table.new ≡ puts table.old f (put index_field (one ((i + 1) % 256)) ∷ put 1 (one 0) ∷ [])) }
{
    let next = get(table, f as usize + (64 + i as usize));
    put(table, f as usize + INDEX, i.wrapping_add(1));
    put(table, f as usize + ERROR, 0);
    next
}

// Function 0 in reading.
pub fn read(image: &[u8], table: &mut [u8], shape: Shape, f: u16) -> Result<u8, Refusal>
    ensures { out (number_of result) (byte_of result) image.now table.new ≡ left image.now table.old f (settled (reading image.now table.old shape.last shape.per f)) }
{
    let i = get(table, f as usize + INDEX);
    if i == 0 {
        let a = next_to_read(table, f);
        return load_at(image, table, shape, f, a);
    }
    Ok(next_byte(table, f, i))
}

// A byte stored at the index i, which moves on; 0 in byte 1.
fn send(table: &mut [u8], f: u16, i: u8, byte: u8)
    ensures { table.new ≡ puts table.old f (sent i byte ++ put 1 (one 0) ∷ []) }
{
    put(table, f as usize + (64 + i as usize), byte);
    put(table, f as usize + INDEX, i.wrapping_add(1));
    put(table, f as usize + ERROR, 0);
}

// The first byte of a sector, which is taken for it.
fn write_first(
    image: &mut [u8],
    table: &mut [u8],
    shape: Shape,
    f: u16,
    byte: u8,
) -> Result<(), Refusal>
    ensures { out (number_of result) 0 image.new table.new ≡ left image.old table.old f (settled (and_then (take_sector image.old table.old shape.last shape.per f) (sent 4 byte))) }
{
    match take_sector(image, table, shape, f) {
        Ok(()) => {
            send(table, f, 4, byte);
            Ok(())
        }
        Err(e) => Err(refuse_with(table, f, e)),
    }
}

// The data of a sector stored, its last byte sent just now.
fn store_full(image: &mut [u8], table: &[u8], shape: Shape, f: u16, a: u16, byte: u8)
    ensures { image.new ≡ over image.old (256 * index shape.per a + 4) (part table.now (f + (buffer_field + 4)) 251 ++ one byte) }
{
    let k = shape.index_of(a);
    store_data(image, k, table, f as usize + DATA);
    put(image, 256 * k as usize + 255, byte);
}

// The last byte of a sector, whose data is stored.
fn write_last(
    image: &mut [u8],
    table: &mut [u8],
    shape: Shape,
    f: u16,
    byte: u8,
) -> Result<(), Refusal>
    ensures { out (number_of result) 0 image.new table.new ≡ left image.old table.old f (settled (fill table.old shape.last shape.per f byte)) }
{
    let a = get2(table, f as usize + POSITION);
    if !shape.is_data(a) {
        return Err(refuse_with(table, f, Refusal::BadWrite));
    }
    store_full(image, table, shape, f, a, byte);
    send(table, f, 255, byte);
    Ok(())
}

// Function 0 in writing.
pub fn write(
    image: &mut [u8],
    table: &mut [u8],
    shape: Shape,
    f: u16,
    byte: u8,
) -> Result<(), Refusal>
    ensures { out (number_of result) 0 image.new table.new ≡ left image.old table.old f (settled (writing image.old table.old shape.last shape.per f byte)) }
{
    let index = get(table, f as usize + INDEX);
    if index == 0 {
        return write_first(image, table, shape, f, byte);
    }
    if index == 255 {
        return write_last(image, table, shape, f, byte);
    }
    send(table, f, index, byte);
    Ok(())
}

// A block closed; 0 in byte 1.
fn shut_block(table: &mut [u8], f: u16)
    ensures { table.new ≡ puts table.old f (shut ++ put 1 (one 0) ∷ []) }
{
    put(table, f as usize + ACTIVITY, Activity::Closed as u8);
    put(table, f as usize + ERROR, 0);
}

// Close of a file that has no sector: its slot is given up.
fn close_empty(image: &mut [u8], table: &mut [u8], shape: Shape, f: u16) -> Result<(), Refusal>
    ensures { out (number_of result) 0 image.new table.new ≡ left image.old table.old f (settled (close_empty image.old table.old shape.last shape.per f)) }
{
    match slot_of(image, table, shape, f) {
        Ok(slot) => {
            mark(image, slot);
            shut_block(table, f);
            Ok(())
        }
        Err(_) => Err(refuse_with(table, f, Refusal::NoDirectory)),
    }
}

// Close of a file whose last sector, at the address a, is not stored yet.
fn close_partial(
    image: &mut [u8],
    table: &mut [u8],
    shape: Shape,
    f: u16,
    a: u16,
) -> Result<(), Refusal>
    ensures { out (number_of result) 0 image.new table.new ≡ left image.old table.old f (settled (close_partial table.old shape.last shape.per f a)) }
{
    if !shape.is_data(a) {
        return Err(refuse_with(table, f, Refusal::BadWrite));
    }
    let k = shape.index_of(a);
    store_data(image, k, table, f as usize + DATA);
    shut_block(table, f);
    Ok(())
}

// Close in writing.
fn close_writing(image: &mut [u8], table: &mut [u8], shape: Shape, f: u16) -> Result<(), Refusal>
    ensures { out (number_of result) 0 image.new table.new ≡ left image.old table.old f (settled (close_writing image.old table.old shape.last shape.per f)) }
{
    let a = get2(table, f as usize + POSITION);
    if a == 0 {
        return close_empty(image, table, shape, f);
    }
    if get(table, f as usize + INDEX) != 0 {
        return close_partial(image, table, shape, f, a);
    }
    shut_block(table, f);
    Ok(())
}

// Function 4.
pub fn close(image: &mut [u8], table: &mut [u8], shape: Shape, f: u16) -> Result<(), Refusal>
    ensures { out (number_of result) 0 image.new table.new ≡ left image.old table.old f (settled (close image.old table.old shape.last shape.per f)) }
{
    if get(table, f as usize + ACTIVITY) == Activity::Writing as u8 {
        return close_writing(image, table, shape, f);
    }
    shut_block(table, f);
    Ok(())
}
