// The census, and what it gives back.
use std::io;

// The numbers of an output.
fn say_output(rt: &impl Print, out: &[u16]) -> io::Result<()> {
    for n in out {
        print!(rt; " {n}")?;
    }
    Ok(())
}

// Sectors with their owners, place for place.
fn say_pairs(rt: &impl Print, sectors: &[u16], owners: &[u16]) -> io::Result<()> {
    for (sector, owner) in sectors.iter().zip(owners) {
        print!(rt; ", {sector} {owner}")?;
    }
    Ok(())
}

// The census into both outputs: the answer, the count and the pairs, or the refusal, 0 and what the outputs have.
fn survey(
    rt: &impl Print,
    image: &[u8],
    sectors: &mut [u16],
    owners: &mut [u16],
) -> io::Result<()> {
    match census::census(image, sectors, owners) {
        Ok(()) => {
            print!(rt; " -> 0 {}", sectors.len())?;
            say_pairs(rt, sectors, owners)
        }
        Err(e) => {
            print!(rt; " -> {} 0; outputs", e.number())?;
            say_output(rt, sectors)?;
            print!(rt; " /")?;
            say_output(rt, owners)
        }
    }
}

// The census into outputs of n and k entries, at most 64, 7 before.
pub(crate) fn map(rt: &impl Print, image: &[u8], n: usize, k: usize) -> io::Result<()> {
    let mut sectors = [7u16; 64];
    let mut owners = [7u16; 64];
    survey(
        rt,
        image,
        &mut sectors[..n.min(64)],
        &mut owners[..k.min(64)],
    )
}
