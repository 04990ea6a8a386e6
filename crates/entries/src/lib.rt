// A directory entry by value: loaded from a slot, made for a new file, stored.
#![tactic(auto)]

ghost use Rattle.std.specs.Prelude.{◌≡◌, length};
ghost use Rattle.rules.specs.Bytes.{part, over};
ghost use Rattle.rules.specs.Directory.{attributes_at};
ghost use Rattle.entries.specs.Entries.{entry_of, new_of, bytes_of};
ghost use Rattle.entries.specs.Protections.{number_of, forbids};

use cells::{get, get_in, get2, put, put2, store};
use rules::block;
use rules::slot::{ATTRIBUTES, DATE, END, MAP, SIZE, SLOT_LENGTH, START};

// What a slot's attributes may forbid: each is its number, a power of two, among them.
#[derive(Clone, Copy)]
pub enum Protection {
    Write = 128,
    Delete = 64,
    Read = 32,
}

impl Protection {
    // Its number.
    fn number(self) -> u8
        ensures { result ≡ number_of self }
    {
        self as u8
    }
}

// The 24 bytes of a slot, which are bytes 4 to 27 of a control block. Bytes 12 and 20 have no name in the rules, and
// byte 19, the map, has no say in what is done here; they are kept.
#[derive(Clone, Copy, Default)]
pub struct Entry {
    pub name: [u8; 11],
    pub attributes: u8,
    pub byte12: u8,
    pub start: u16,
    pub end: u16,
    pub size: u16,
    pub byte19: u8,
    pub byte20: u8,
    pub date: [u8; 3],
}

impl Entry {
    // Its bytes, each field where a slot has it.
    fn bytes(&self) -> [u8; SLOT_LENGTH]
        ensures { result ≡ bytes_of self.now }
    {
        let mut bytes = [0; SLOT_LENGTH];
        store(&mut bytes, 0, &self.name);
        put(&mut bytes, ATTRIBUTES, self.attributes);
        put(&mut bytes, 12, self.byte12);
        put2(&mut bytes, START, self.start);
        put2(&mut bytes, END, self.end);
        put2(&mut bytes, SIZE, self.size);
        put(&mut bytes, MAP, self.byte19);
        put(&mut bytes, 20, self.byte20);
        store(&mut bytes, DATE, &self.date);
        bytes
    }
}

// Every byte set to the one so far behind a place, 0 past the end.
fn read(bytes: &mut [u8], buffer: &[u8], at: usize)
    ensures { bytes.new ≡ part buffer.now at (length bytes.old) }
{
    for (i, byte) in bytes.iter_mut().enumerate() {
        *byte = get_in(buffer, at, i);
    }
}

// The N bytes at a place.
pub fn bytes_at<const N: usize>(buffer: &[u8], at: usize) -> [u8; N]
    ensures { result ≡ part buffer.now at N }
{
    let mut bytes = [0; N];
    read(&mut bytes, buffer, at);
    bytes
}

// The entry of a slot.
pub fn entry_at(image: &[u8], slot: u32) -> Entry
    ensures { result ≡ entry_of image.now slot }
{
    let at = slot as usize;
    Entry {
        name: bytes_at(image, at),
        attributes: get(image, at + ATTRIBUTES),
        byte12: get(image, at + 12),
        start: get2(image, at + START),
        end: get2(image, at + END),
        size: get2(image, at + SIZE),
        byte19: get(image, at + MAP),
        byte20: get(image, at + 20),
        date: bytes_at(image, at + DATE),
    }
}

// Is this forbidden by the slot's attributes?
pub fn is_protected(image: &[u8], slot: u32, from: Protection) -> bool
    ensures { result ≡ forbids from (attributes_at image.now slot) }
{
    get(image, slot as usize + ATTRIBUTES) / from.number() % 2 == 1
}

// The entry of a new file: the name and the date of the block that begins at f, all else 0.
pub fn new_entry(table: &[u8], f: u16) -> Entry
    ensures { result ≡ new_of table.now f }
{
    let at = f as usize;
    Entry {
        name: bytes_at(table, at + block::NAME),
        date: bytes_at(table, at + block::DATE),
        ..Entry::default()
    }
}

// An entry's bytes stored from a place on.
pub fn put_entry(buffer: &mut [u8], at: u32, entry: Entry)
    ensures { buffer.new ≡ over buffer.old at (bytes_of entry) }
{
    store(buffer, at as usize, &entry.bytes());
}
