// Chains walked by links, each sector's number stored in an output on the way. All are total.
#![tactic(auto)]

ghost use Rattle.std.specs.Prelude.{◌≡◌};
ghost use Rattle.rules.specs.Image.{data_number};
ghost use Rattle.census_laws.specs.Walks.{laid, walk, chain_at};

use cells::{get2, place};
use disk::{Shape, link_of};

// The number of the data sector with the index k.
pub fn number(shape: Shape, k: u16) -> u16
    ensures { result ≡ data_number shape.per k }
{
    if k < shape.per as u16 {
        return 0;
    }
    k - shape.per as u16
}

// So many data sectors by links from a start, of which the last is the end and links to 0,0: their numbers stored from a place on.
fn walk(
    image: &[u8],
    shape: Shape,
    start: u16,
    end: u16,
    count: u16,
    out: &mut [u16],
    at: usize,
) -> Option<usize>
    ensures { laid result out.new ≡ walk image.now shape.last shape.per end count 0 start out.old at 0 }
{
    let mut before = 0u16;
    let mut a = start;
    for i in 0..count as usize {
        if !shape.is_data(a) {
            return None;
        }
        let k = shape.index_of(a);
        let x = number(shape, k);
        place(out, at, i, x);
        before = a;
        a = link_of(image, k);
    }
    if a != 0 {
        return None;
    }
    if before != end {
        return None;
    }
    Some(count as usize)
}

// The chain of which a slot tells start, end and count.
pub fn chain_at(image: &[u8], shape: Shape, slot: u32, out: &mut [u16], at: usize) -> Option<usize>
    ensures { laid result out.new ≡ chain_at image.now shape.last shape.per slot out.old at }
{
    let start = get2(image, slot as usize + 13);
    let end = get2(image, slot as usize + 15);
    let count = get2(image, slot as usize + 17);
    let most = shape.data_sectors();
    if count > most {
        return None;
    }
    walk(image, shape, start, end, count, out, at)
}
