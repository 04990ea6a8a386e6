// The census with its outputs as bytes, two an entry, high byte first: as a host program gets it.
#![tactic(auto)]

ghost use Rattle.std.specs.Prelude.{◌≡◌, ◌*◌, ◌≤◌, true, length};
ghost use Rattle.rules.specs.Bytes.{over};
ghost use Rattle.rules.specs.Image.{shape_right, last_track, per_track};
ghost use Rattle.rules.specs.Refusals.{number_of};
ghost use Rattle.rules.specs.Census.{survey};
ghost use Rattle.rules.specs.Host.{as_bytes, host_census};

use cells::put2;
use census::census;
use disk::{Shape, shape_of};
use rules::refusal::Refusal;

// Numbers stored as bytes, from the start on.
pub fn spread(out: &mut [u8], numbers: &[u16])
    ensures { out.new ≡ over out.old 0 (as_bytes numbers.now) }
{
    for (i, number) in numbers.iter().enumerate() {
        put2(out, 2 * i, *number);
    }
}

// The census made on numbers, in two lent slices of an entry a data sector, and stored as bytes.
fn on_numbers(
    image: &[u8],
    sectors: &mut [u8],
    owners: &mut [u8],
    listed: &mut [u16],
    held: &mut [u16],
) -> Result<(), Refusal>
    requires { (shape_right image.now ≡ true) × (length listed.old ≡ last_track image.now * per_track image.now) × (length held.old ≡ length listed.old) × (length sectors.old ≡ 2 * length listed.old) × (length owners.old ≡ 2 * length listed.old) }
    ensures { survey (number_of result) sectors.new owners.new ≡ host_census image.now sectors.old owners.old }
{
    let answer = census(image, listed, held);
    spread(sectors, listed);
    spread(owners, held);
    answer
}

// The same for an image of n data sectors, with room for N numbers in each, which is cleared whole.
fn with_room<const N: usize>(
    image: &[u8],
    sectors: &mut [u8],
    owners: &mut [u8],
    n: usize,
) -> Result<(), Refusal>
    requires { (shape_right image.now ≡ true) × (n ≡ last_track image.now * per_track image.now) × (n ≤ N) × (N ≤ 2844) × (length sectors.old ≡ 2 * n) × (length owners.old ≡ 2 * n) }
    ensures { survey (number_of result) sectors.new owners.new ≡ host_census image.now sectors.old owners.old }
{
    let mut listed = [0u16; N];
    let mut held = [0u16; N];
    on_numbers(image, sectors, owners, &mut listed[..n], &mut held[..n])
}

// The same for an image of this shape: both outputs must have two bytes for each data sector.
fn on_shape(
    image: &[u8],
    sectors: &mut [u8],
    owners: &mut [u8],
    shape: Shape,
) -> Result<(), Refusal>
    requires { (shape_right image.now ≡ true) × (shape.last ≡ last_track image.now) × (shape.per ≡ per_track image.now) }
    ensures { survey (number_of result) sectors.new owners.new ≡ host_census image.now sectors.old owners.old }
{
    let n = shape.data_sectors() as usize;
    if sectors.len() != 2 * n {
        return Err(Refusal::WrongLength);
    }
    if owners.len() != 2 * n {
        return Err(Refusal::WrongLength);
    }
    if n <= 1000 {
        return with_room::<1000>(image, sectors, owners, n); // a small diskette should cost little
    }
    with_room::<2844>(image, sectors, owners, n)
}

// The census for a host: the answer, and both outputs as bytes.
pub fn census_bytes(image: &[u8], sectors: &mut [u8], owners: &mut [u8]) -> Result<(), Refusal>
    ensures { survey (number_of result) sectors.new owners.new ≡ host_census image.now sectors.old owners.old }
{
    match shape_of(image) {
        Some(shape) => on_shape(image, sectors, owners, shape),
        None => Err(Refusal::WrongShape),
    }
}
