// Runs cases of documents 01 and 02 through the proved entries. Each argument names a file of data/, a section of the cases: a script of at
// most 65,536 bytes, a command a line. The file's name is written out, then each line again with what came of it, so that the output is the
// scripts with their answers. Each file starts from buffers of zeros with nothing lent, so that its answers depend on no other file.
//
// The first word of a line, which a space or the line's end ends, is the command; an empty line is none. Numbers are decimal; a missing
// one is 0. Of bytes that are written out, eight and more equal ones in a row are "byte*count".
//
//   # text             a heading
//   fresh              the blank five-sector diskette (M = 1, S = 5, free 1,1 to 1,5), closed blocks, both lent whole
//   lend I T           from here on the first I bytes of the image and the first T of the table are lent
//   name B NAME.EXT    presets the eleven bytes of the name in block B        -> the last answer
//   as B NAME.EXT      presets the eleven bytes of the new name               -> the last answer
//   preset B O V       presets one byte                                       -> the answer
//   extension B C      default extension                                      -> the answer
//   call B F V         presets the function F, then calls with the byte V     -> the function, its answer and its byte
//   write B N V        N times function 0 with the byte V, till refused       -> how many were accepted, the last answer
//   read B N           N times function 0, till refused                       -> the bytes, the last answer
//   shape M S L V D D D  formats what is lent of the image: last track, sectors per track, a label of L bytes, at most 32, A to Z
//                      and on, the volume number, month, day and year                                -> the answer
//   diff               what the last of these eight commands changed (but for the function it preset), a line for each run of bytes
//   map N K            the census into outputs of N and K entries, 7 before   -> the answer and the count, then pairs "sector owner"
//   text L N           the error text of N into L bytes, dots before          -> the answer and the bytes
//   image O N          N bytes of the image from O on                         -> the bytes
//   image O = V V ..   bytes put into the image by hand
//   block B O N        N bytes of block B from O on                           -> the bytes
//   block B O = V V .. bytes put into the block by hand
//
// A line that begins with `?` says what is wrong: a word that is none of these, or a file that is empty, that has more than 65,536 bytes,
// that cannot be opened, as one whose name is no UTF-8 text, or that cannot be read. The last five arguments are wrong on purpose, one for
// each of these.
#![tactic(auto)]

mod ask;
mod command;
mod line;
mod look;
mod map;
mod say;
mod script;

use std::env::{Env, FillError};
use std::fs::Files;
use std::io::{ErrorKind, Read};
use std::{fs, io, str};

// What a file has behind what was read of it, and the file is closed: a number above 0 where there is more, an error where it cannot be
// read.
fn rest(mut file: impl Read + Drop) -> io::Result<usize> {
    let mut byte = [0u8; 1];
    file.read(&mut byte)
}

// The script in an open file.
fn run_file<R: Files + Print + Alloc>(rt: &R, mut file: R::File) -> io::Result<()> {
    let mut script = Vec::new(rt.alloc());
    let more = match file.by_ref().take(65536).read_to_end(&mut script) {
        Ok(_) => rest(file),
        Err(e) => Err(e),
    };
    match more {
        Err(e) if e.kind() == ErrorKind::OutOfMemory => Err(e),
        Err(_) => println!(rt; "? the file cannot be read"),
        Ok(0) if script.is_empty() => println!(rt; "? the file is empty"),
        Ok(0) => script::run(rt, &script),
        Ok(_) => println!(rt; "? the file has more than 65,536 bytes"),
    }
}

// The file of this name, open; none where it cannot be opened.
fn open_read<R: Files>(rt: &R, name: &[u8]) -> Option<R::File> {
    let path = str::from_utf8(name).ok()?;
    fs::open(rt, path).ok()
}

// The script in the file that argument i names; whether there is such an argument. `env::args` would do without the buffer and its length,
// but gives only names that are UTF-8 text, and what is printed of another is its bytes.
fn run_named<R: Env + Files + Print + Alloc>(rt: &R, i: usize) -> io::Result<bool> {
    let mut name = [0u8; 4096];
    let n = match rt.arg(i, &mut name) {
        Ok(n) => n,
        Err(FillError::TooLong) => 0,
        Err(FillError::NotPresent) => return Ok(false),
    };
    print!(rt; "\nfile ")?;
    rt.write_all(&name[..n])?;
    println!(rt; "")?;
    match open_read(rt, &name[..n]) {
        Some(file) => run_file(rt, file)?,
        None => println!(rt; "? the file cannot be opened")?,
    }
    Ok(true)
}

fn main(rt: HostRuntime) -> io::Result<()> {
    for i in 1..usize::MAX {
        if !run_named(&rt, i)? {
            break;
        }
    }
    Ok(())
}
