// The image as a diskette: its shape, the addresses of sectors, the information record, sectors loaded and stored. All are total.
#![tactic(auto)]

ghost use Rattle.std.specs.Prelude.{◌≡◌, [], ◌∷◌, ◌+◌, ◌*◌, ◌≤◌};
ghost use Rattle.rules.specs.Bytes.{part, over, six};
ghost use Rattle.rules.specs.Stores.{store, stored};
ghost use Rattle.rules.specs.Image.{within_limits, index, address_of, is_sector, is_data, link_of, info_sector, info_first};
ghost use Rattle.rules.specs.Transfer.{fresh, linked};
ghost use Rattle.disk.specs.Loaded.{is_shape, shape_of, free_of};

use cells::{copy, get, get2, put2, put6, store};

mod diskette;

pub use diskette::Diskette;

// The last track and the sectors per track, any two numbers.
#[derive(Clone, Copy)]
pub struct Shape {
    pub last: u8,
    pub per: u8,
}

// The free chain, as the information record has it.
#[derive(Clone, Copy, Default)]
pub struct Free {
    pub first: u16,
    pub last: u16,
    pub count: u16,
}

// Are a last track and sectors per track within their limits?
pub fn within_limits(last: usize, per: usize) -> bool
    ensures { result ≡ within_limits last per }
{
    if last < 1 {
        return false;
    }
    if last > 79 {
        return false;
    }
    if per < 5 {
        return false;
    }
    per <= 36
}

// The image's shape, if it is right.
pub fn shape_of(image: &[u8]) -> Option<Shape>
    ensures { result ≡ shape_of image.now }
{
    let shape = Shape {
        last: get(image, 550),
        per: get(image, 551),
    };
    if shape.fits(image.len()) {
        Some(shape)
    } else {
        None
    }
}

impl Shape {
    // Does a length fit it, and is it within the limits?
    fn fits(self, length: usize) -> bool
        ensures { result ≡ is_shape length self.last self.per }
    {
        if length < 552 {
            return false;
        }
        if !within_limits(self.last as usize, self.per as usize) {
            return false;
        }
        length == self.sectors() * 256
    }

    // How many sectors there are.
    pub fn sectors(self) -> usize
        ensures { (result ≡ (self.last + 1) * self.per) × (result ≤ 65280) }
    {
        (self.last as usize + 1) * self.per as usize
    }

    // How many data sectors.
    pub fn data_sectors(self) -> u16
        ensures { result ≡ self.last * self.per }
    {
        self.last as u16 * self.per as u16
    }

    // The index of the sector at an address.
    pub fn index_of(self, a: u16) -> u16
        ensures { result ≡ index self.per a }
    {
        let [track, sector] = a.to_be_bytes();
        (track as u16 * self.per as u16 + sector as u16).saturating_sub(1)
    }

    // The address of the sector with the index k. A number of two bytes where that sector is on a track up to 255.
    pub fn address_of(self, k: u32) -> usize
        ensures { result ≡ address_of self.per k }
    {
        if self.per == 0 {
            return k as usize + 1; // no track has a sector: what the rule gives by division by 0
        }
        let track = k / self.per as u32;
        let place = k % self.per as u32;
        256 * track as usize + place as usize + 1
    }

    // Is there a sector at an address?
    pub fn is_sector(self, a: u16) -> bool
        ensures { result ≡ is_sector self.last self.per a }
    {
        let [track, sector] = a.to_be_bytes();
        if track > self.last {
            return false;
        }
        1 <= sector && sector <= self.per
    }

    // Is it a data sector?
    pub fn is_data(self, a: u16) -> bool
        ensures { result ≡ is_data self.last self.per a }
    {
        let [track, _] = a.to_be_bytes();
        if track < 1 {
            return false;
        }
        self.is_sector(a)
    }
}

// The link of the sector with the index k.
pub fn link_of(image: &[u8], k: u16) -> u16
    ensures { result ≡ link_of image.now k }
{
    get2(image, 256 * k as usize)
}

// The link of the sector with the index k set to an address, unless there is no such sector. The test stands here and not with each
// caller, for docs/PROMISES.md names this function as the one that stores no link where there is none.
pub fn link(image: &mut [u8], none: bool, k: u16, a: u16)
    ensures { image.new ≡ stored image.old (linked none k a) }
{
    if none {
        return;
    }
    put2(image, 256 * k as usize, a);
}

// What the information record says of the free chain.
pub fn free_of(image: &[u8]) -> Free
    ensures { result ≡ free_of image.now }
{
    let first = get2(image, 256 * 2 + 29);
    let last = get2(image, 256 * 2 + 31);
    let count = get2(image, 256 * 2 + 33);
    Free { first, last, count }
}

// The six bytes of the information record that say it.
pub fn put_free(image: &mut [u8], first: u16, last: u16, count: u16)
    ensures { image.new ≡ over image.old (256 * info_sector + info_first) (six first last count) }
{
    put6(image, 256 * 2 + 29, first, last, count);
}

// A sector of the image loaded: its own 256 bytes are passed on. Where the image ends earlier, what is missing reads as 0.
pub fn load_sector(table: &mut [u8], at: usize, image: &[u8], k: u16)
    ensures { table.new ≡ over table.old at (part image.now (256 * k) 256) }
{
    let o = 256 * k as usize;
    if image.len() < o + 256 {
        copy(table, at, image, o, 256);
        return;
    }
    store(table, at, &image[o..o + 256]);
}

// The data of a sector, its bytes 4 to 255, stored into its own 256 bytes. Where the image ends earlier, what would lie behind
// its end is not stored.
pub fn store_data(image: &mut [u8], k: u16, table: &[u8], from: usize)
    ensures { image.new ≡ over image.old (256 * k + 4) (part table.now from 252) }
{
    let o = 256 * k as usize;
    if image.len() < o + 256 {
        copy(image, o + 4, table, from, 252);
        return;
    }
    copy(&mut image[o..o + 256], 4, table, from, 252);
}

// All bytes of a sector stored, likewise. The lengths are written out in both: so the compiler copies without a call.
fn store_whole(image: &mut [u8], k: u16, table: &[u8], from: usize)
    ensures { image.new ≡ over image.old (256 * k) (part table.now from 256) }
{
    let o = 256 * k as usize;
    if image.len() < o + 256 {
        copy(image, o, table, from, 256);
        return;
    }
    copy(&mut image[o..o + 256], 0, table, from, 256);
}

// The same as a store.
pub fn store_sector(image: &mut [u8], k: u16, table: &[u8], from: usize)
    ensures { image.new ≡ stored image.old (store k 0 (part table.now from 256) ∷ []) }
{
    store_whole(image, k, table, from);
}

// A new sector stored: its record number is the size, its link 0,0, its data zeros.
pub fn fresh_sector(buffer: &mut [u8], at: usize, size: u16)
    ensures { buffer.new ≡ over buffer.old at (fresh size) }
{
    let mut sector = [0u8; 256];
    let [high, low] = size.to_be_bytes();
    sector[2] = high;
    sector[3] = low;
    store(buffer, at, &sector);
}
