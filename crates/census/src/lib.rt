// The census: order 41, 40, 42 to 46, and the lists of sectors and owners of a diskette that is in order.
#![tactic(auto)]

ghost use Rattle.std.specs.Prelude.{◌≡◌, ◌*◌, length};
ghost use Rattle.rules.specs.Bytes.{over};
ghost use Rattle.rules.specs.Image.{free_count};
ghost use Rattle.rules.specs.Refusals.{number_of};
ghost use Rattle.rules.specs.Census.{survey, fault, concluded, census};
ghost use Rattle.census_laws.specs.Whole.{mended, chains_fault, owners_by, ended, ending, sized};

use cells::{fill, get2, run};
use chainwalk::chain_at;
use directory::directory_right;
use disk::{Diskette, Shape, shape_of};
use outputs::are_new;
use rules::refusal::Refusal;
use slotwalk::{has_twins, list_directory, list_files, own_files};

// The owner that stands for the directory, and where a slot would begin whose start is the first free sector.
const DIRECTORY: u16 = 65534;

const BEFORE_FREE: u32 = 528;

// The free count.
fn free_count(image: &[u8]) -> u16
    ensures { result ≡ free_count image.now }
{
    get2(image, 256 * 2 + 33)
}

// The owners in order: 0 of the free chain's sectors, 65,534 of the directory's own, then the slots' numbers.
fn own_all(image: &[u8], shape: Shape, own: u16, out: &mut [u16])
    ensures { out.new ≡ over out.old 0 (owners_by image.now shape.last shape.per own) }
{
    let count = free_count(image);
    run(out, 0, count as usize, 0);
    run(out, count as usize, own as usize, DIRECTORY);
    own_files(image, shape, out, count as u32 + own as u32);
}

// The end, where n sectors were listed, of which so many are the directory's own: 46, or the owners.
fn end(
    image: &[u8],
    shape: Shape,
    own: u16,
    n: usize,
    sectors: &[u16],
    owners: &mut [u16],
) -> Result<(), Refusal>
    ensures { ended (number_of result) owners.new ≡ ending image.now shape.last shape.per own n sectors.now owners.old }
{
    if n != sectors.len() {
        return Err(Refusal::NotOnce);
    }
    let once = are_new(sectors, owners);
    if !once {
        return Err(Refusal::NotOnce); // a sector twice
    }
    own_all(image, shape, own, owners);
    Ok(())
}

// The chains, the directory's between the free one and the files': 44, 45, and the end. The information record has the free chain
// as a slot at `BEFORE_FREE` would.
fn chains(image: &[u8], d: Diskette, sectors: &mut [u16], owners: &mut [u16]) -> Result<(), Refusal>
    requires { (length sectors.old ≡ d.shape.last * d.shape.per) × (length owners.old ≡ d.shape.last * d.shape.per) }
    ensures { mended (number_of result) sectors.new owners.new ≡ concluded image.now d.shape.last d.shape.per (chains_fault image.now d.shape.last d.shape.per) }
{
    let Some(_) = chain_at(image, d.shape, BEFORE_FREE, sectors, 0) else {
        return Err(Refusal::WrongFreeChain);
    };
    let count = free_count(image);
    let own = list_directory(image, d.shape, sectors, count);
    let Some(n) = list_files(image, d.shape, sectors, count as u32 + own as u32) else {
        return Err(Refusal::WrongFile);
    };
    end(image, d.shape, own, n, sectors, owners)
}

// Directory and names, 42 and 43, before the chains. The owners' output is lent for a table of names: it is overwritten later, or filled.
fn tried(image: &[u8], d: Diskette, sectors: &mut [u16], owners: &mut [u16]) -> Result<(), Refusal>
    requires { (length sectors.old ≡ d.shape.last * d.shape.per) × (length owners.old ≡ d.shape.last * d.shape.per) }
    ensures { mended (number_of result) sectors.new owners.new ≡ concluded image.now d.shape.last d.shape.per (fault image.now d.shape.last d.shape.per) }
{
    let right = directory_right(image, d.shape);
    if !right {
        return Err(Refusal::WrongDirectory);
    }
    let twins = has_twins(image, d.shape, owners);
    if twins {
        return Err(Refusal::SameName);
    }
    chains(image, d, sectors, owners)
}

// Lengths, 40, before that. A refusal after them fills both outputs.
fn sized(image: &[u8], d: Diskette, sectors: &mut [u16], owners: &mut [u16]) -> Result<(), Refusal>
    ensures { survey (number_of result) sectors.new owners.new ≡ sized image.now d.shape.last d.shape.per sectors.old owners.old }
{
    let n = d.shape.data_sectors() as usize;
    if sectors.len() != n {
        return Err(Refusal::WrongLength);
    }
    if owners.len() != n {
        return Err(Refusal::WrongLength);
    }
    match tried(image, d, sectors, owners) {
        Ok(()) => Ok(()),
        Err(e) => {
            fill(sectors, 65535);
            fill(owners, 65535);
            Err(e)
        }
    }
}

// The census: its answer; of a diskette in order the numbers of its data sectors, the free chain's, the directory's and then file by file, and
// each one's owner.
pub fn census(image: &[u8], sectors: &mut [u16], owners: &mut [u16]) -> Result<(), Refusal>
    ensures { survey (number_of result) sectors.new owners.new ≡ census image.now sectors.old owners.old }
{
    match shape_of(image) {
        Some(shape) => sized(image, Diskette { shape }, sectors, owners),
        None => Err(Refusal::WrongShape),
    }
}
