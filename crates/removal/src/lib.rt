// Delete's last part: an entry's chain is hung behind the free chain, unwalked, and its slot marked, once no other test refuses it.
// The table and f stay two parameters: why is told in `blocks`.
#![tactic(auto)]

ghost use Rattle.std.specs.Prelude.{◌≡◌, [], ◌∷◌, ◌++◌, ◌+◌, ◌≤◌, eqb};
ghost use Rattle.rules.specs.Bytes.{pick, one};
ghost use Rattle.rules.specs.Stores.{stored, put, puts};
ghost use Rattle.rules.specs.Refusals.{number_of};
ghost use Rattle.rules.specs.Outcome.{out, left, settled};
ghost use Rattle.rules.specs.Transfer.{mark};
ghost use Rattle.rules.specs.Files.{hang_stores, gone, remove};
ghost use Rattle.removal.specs.Hanging.{is_end, may_hang};

use blocks::refuse_with;
use cells::{copy, put};
use directory::mark;
use disk::{Free, Shape, free_of, link, put_free};
use entries::{Entry, entry_at};
use rules::block::{ERROR, NAME};
use rules::refusal::Refusal;

// The slot as it is marked, in the block.
fn show_marked(image: &[u8], table: &mut [u8], f: u16, slot: u32)
    ensures { table.new ≡ puts table.old f (gone image.now slot ++ put 1 (one 0) ∷ []) }
{
    put(table, f as usize + NAME, 255);
    copy(table, f as usize + NAME + 1, image, slot as usize + 1, 23);
    put(table, f as usize + ERROR, 0);
}

// Can a chain hang behind the free chain's end? Where the free chain is empty, it hangs behind none.
fn is_end(shape: Shape, free: Free) -> bool
    ensures { result ≡ is_end shape.last shape.per free }
{
    free.count == 0 || shape.is_data(free.last)
}

// May the entry's chain be hung behind the free chain?
fn may_hang(shape: Shape, entry: Entry, free: Free) -> bool
    ensures { result ≡ may_hang shape.last shape.per entry free }
{
    shape.is_data(entry.start)
        && shape.is_data(entry.end)
        && is_end(shape, free)
        && free.count as u32 + entry.size as u32 <= 65535
}

// Where the free chain begins then.
fn head_of(entry: Entry, free: Free) -> u16
    ensures { result ≡ pick (eqb free.count 0) entry.start free.first }
{
    if free.count == 0 {
        entry.start
    } else {
        free.first
    }
}

// The entry's chain hung behind the free chain, and its slot marked.
fn hang(image: &mut [u8], shape: Shape, slot: u32, entry: Entry, free: Free)
    requires { free.count + entry.size ≤ 65535 }
    ensures { image.new ≡ stored image.old (hang_stores shape.per slot free.count free.first free.last entry.start entry.end entry.size) }
{
    let k = shape.index_of(free.last);
    link(image, free.count == 0, k, entry.start);
    let head = head_of(entry, free);
    put_free(image, head, entry.end, free.count + entry.size);
    mark(image, slot);
}

// A file removed.
pub fn remove(
    image: &mut [u8],
    table: &mut [u8],
    shape: Shape,
    f: u16,
    slot: u32,
) -> Result<(), Refusal>
    ensures { out (number_of result) 0 image.new table.new ≡ left image.old table.old f (settled (remove image.old shape.last shape.per slot)) }
{
    let entry = entry_at(image, slot);
    let free = free_of(image);
    if entry.size == 0 {
        show_marked(image, table, f, slot);
        mark(image, slot);
        return Ok(());
    }
    if !may_hang(shape, entry, free) {
        return Err(refuse_with(table, f, Refusal::BadRead));
    }
    show_marked(image, table, f, slot);
    hang(image, shape, slot, entry, free);
    Ok(())
}
