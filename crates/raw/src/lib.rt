// Raw writing, for service staff: put slot and write sector, on the block that begins at f. What the block holds is stored as it is:
// neither looks at names, use or protection. Each loads, tests in the rules' order and stores; byte 1 is the last store.
// The table and f stay two parameters: why is told in `blocks`.
#![tactic(auto)]

ghost use Rattle.std.specs.Prelude.{◌≡◌};
ghost use Rattle.rules.specs.Refusals.{number_of};
ghost use Rattle.rules.specs.Outcome.{out, left, settled};
ghost use Rattle.rules.specs.Files.{put_slot, write_sector};
ghost use Rattle.raw.specs.Parts.{put_slot_at};

use blocks::refuse_with;
use cells::{copy, get2, put};
use disk::{Shape, store_sector};
use rules::block::{BUFFER, ERROR, NAME, POSITION};
use rules::refusal::Refusal;
use rules::slot::SLOT_LENGTH;
use taking::slot_of;

// The block's entry stored in a slot.
fn put_slot_at(image: &mut [u8], table: &mut [u8], f: u16, slot: u32)
    ensures { out 0 0 image.new table.new ≡ left image.old table.old f (settled (put_slot_at table.old f slot)) }
{
    copy(image, slot as usize, table, f as usize + NAME, SLOT_LENGTH);
    put(table, f as usize + ERROR, 0);
}

// 8 put slot.
pub fn put_slot(image: &mut [u8], table: &mut [u8], shape: Shape, f: u16) -> Result<(), Refusal>
    ensures { out (number_of result) 0 image.new table.new ≡ left image.old table.old f (settled (put_slot image.old table.old shape.last shape.per f)) }
{
    match slot_of(image, table, shape, f) {
        Ok(slot) => {
            put_slot_at(image, table, f, slot);
            Ok(())
        }
        Err(_) => Err(refuse_with(table, f, Refusal::NoDirectory)),
    }
}

// 10 write sector.
pub fn write_sector(image: &mut [u8], table: &mut [u8], shape: Shape, f: u16) -> Result<(), Refusal>
    ensures { out (number_of result) 0 image.new table.new ≡ left image.old table.old f (settled (write_sector image.old table.old shape.last shape.per f)) }
{
    let a = get2(table, f as usize + POSITION);
    if !shape.is_sector(a) {
        return Err(refuse_with(table, f, Refusal::BadWrite));
    }
    store_sector(image, shape.index_of(a), table, f as usize + BUFFER);
    put(table, f as usize + ERROR, 0);
    Ok(())
}
