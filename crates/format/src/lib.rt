// A blank diskette, stored into a lent image sector by sector: each is written from a cleared block of 256 bytes.
#![tactic(auto)]

ghost use Rattle.std.specs.Prelude.{◌≡◌, ◌+◌, ◌*◌, ◌≤◌, ◌<◌, length};
ghost use Rattle.rules.specs.Bytes.{over};
ghost use Rattle.rules.specs.Stores.{puts};
ghost use Rattle.rules.specs.Outcome.{told};
ghost use Rattle.rules.specs.Refusals.{number_of};
ghost use Rattle.rules.specs.Format.{link_up, information, settings, blank, format};
ghost use Rattle.format.specs.Volumes.{of_volume};

use cells::{put2, store};
use disk::{Diskette, Shape, within_limits};
use rules::refusal::Refusal;

// Indices: of the information record, sector (0, 3), and of the directory's first, (0, 5). Those before it are in no chain.
const INFO_SECTOR: usize = 2;

const FIRST_OF_DIRECTORY: usize = 4;

// Where the parts of the information record stand.
const LABEL: usize = 16;

const VOLUME: usize = 27;

const FIRST_FREE: usize = 29;

const LAST_FREE: usize = 31;

const COUNT: usize = 33;

const DATE: usize = 35;

const SHAPE: usize = 38;

// What a diskette is called: the label, eleven bytes, the volume number and the date.
#[derive(Clone, Copy)]
pub struct Volume<'a> {
    pub label: &'a [u8],
    pub number: u16,
    pub month: u8,
    pub day: u8,
    pub year: u8,
}

// A blank diskette to be.
#[derive(Clone, Copy)]
struct Blank<'a> {
    diskette: Diskette,
    volume: Volume<'a>,
}

// A block stored into its sector's own 256 bytes, which the image has.
// Not disk's store_sector, which serves any image: tried, and as the compiler then copies through a call, a format takes 2.1 times the instructions.
fn store_sector(image: &mut [u8], k: usize, block: &[u8])
    requires { (256 * k + 256 ≤ length image.old) × (length block.now ≡ 256) }
    ensures { image.new ≡ over image.old (256 * k) block.now }
{
    let o = 256 * k;
    store(&mut image[o..o + 256], 0, block);
}

impl Blank<'_> {
    // The link of the sector with the index k: the sector behind it; 0,0 in the last of the directory and the last of all.
    #[tactic(auto, unfolding(rules::specs::Format::link_up))]
    fn set_link(&self, block: &mut [u8], k: usize)
        requires { k < (self.now.diskette.shape.last + 1) * self.now.diskette.shape.per }
        ensures { block.new ≡ over block.old 0 (link_up self.now.diskette.shape.last self.now.diskette.shape.per k) }
    {
        let per = self.diskette.shape.per as usize;
        let behind = k + 1;
        let link = if behind == per || behind == self.diskette.shape.sectors() {
            [0, 0]
        } else {
            [(behind / per) as u8, (behind % per + 1) as u8]
        };
        store(block, 0, &link);
    }

    // The information record's bytes: all data sectors are free, from 1,1 to the last.
    #[tactic(auto, unfolding(rules::specs::Format::information))]
    fn set_information(&self, block: &mut [u8])
        ensures { block.new ≡ puts block.old 0 (of_volume (information self.now.diskette.shape.last self.now.diskette.shape.per) self.now.volume) }
    {
        let end = [self.diskette.shape.last, self.diskette.shape.per];
        let volume = self.volume;
        store(block, LABEL, volume.label);
        put2(block, VOLUME, volume.number);
        store(block, FIRST_FREE, &[1, 1]);
        store(block, LAST_FREE, &end);
        put2(block, COUNT, self.diskette.shape.data_sectors());
        store(block, DATE, &[volume.month, volume.day, volume.year]);
        store(block, SHAPE, &end);
    }

    // What is not 0 in the sector with the index k.
    #[tactic(auto, unfolding(rules::specs::Format::settings))]
    fn set_sector(&self, block: &mut [u8], k: usize)
        requires { k < (self.now.diskette.shape.last + 1) * self.now.diskette.shape.per }
        ensures { block.new ≡ puts block.old 0 (of_volume (settings self.now.diskette.shape.last self.now.diskette.shape.per) self.now.volume k) }
    {
        if k == INFO_SECTOR {
            self.set_information(block);
        } else if k >= FIRST_OF_DIRECTORY {
            self.set_link(block, k);
        }
    }

    // Every sector stored.
    // Not by chunks_mut: when the image has been lent out in chunks, its contract says how long it is and nothing of its bytes.
    fn fill(&self, image: &mut [u8])
        requires { length image.old ≡ (self.now.diskette.shape.last + 1) * self.now.diskette.shape.per * 256 }
        ensures { image.new ≡ of_volume (blank self.now.diskette.shape.last self.now.diskette.shape.per) self.now.volume }
    {
        for k in 0..self.diskette.shape.sectors() {
            let mut block = [0u8; 256];
            self.set_sector(&mut block, k);
            store_sector(image, k, &block);
        }
    }
}

// A lent image filled with a blank diskette of tracks 0 to `last` with `per` sectors each. WrongShape for a last track or sectors per
// track out of their limits, then WrongLength for an image or a label of the wrong length: these change nothing.
#[tactic(auto, unfolding(rules::specs::Format::format, rules::specs::Image::within_limits, rules::specs::Bytes::within))]
pub fn format(image: &mut [u8], last: usize, per: usize, volume: Volume) -> Result<(), Refusal>
    ensures { told (number_of result) image.new ≡ of_volume (format image.old last per) volume.entry }
{
    if !within_limits(last, per) {
        return Err(Refusal::WrongShape);
    }
    let shape = Shape {
        last: last as u8,
        per: per as u8,
    };
    if image.len() != shape.sectors() * 256 || volume.label.len() != 11 {
        return Err(Refusal::WrongLength);
    }
    let diskette = Diskette { shape };
    Blank { diskette, volume }.fill(image);
    Ok(())
}
