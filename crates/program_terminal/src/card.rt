// The card: its image comes from the file that is named, which stays open to keep each change; or it is the card to try, which no file keeps.
use crate::files;
use crate::status::Fault;
use std::fs::File;
use std::io::{Error, Stderr};
use std::rt::Files;

// The card to try: sections 0101, 0102, 011A, each of 40 bytes, count 0. Answers how long its image is.
pub(crate) fn example(out: &mut [u8]) -> usize {
    base::put(out, 0, &[40, 0, 0, 0, 0x01, 0x01]);
    base::put(out, 46, &[40, 0, 0, 0, 0x02, 0x01]);
    base::put(out, 92, &[40, 0, 0, 0, 0x1A, 0x01]);
    138
}

// Says which file cannot be used, and why.
fn unusable(err: Stderr, name: &[u8], error: Error) -> Fault {
    program_console::warn(err, b"! the card's file cannot be used: ");
    files::fail(err, name, error);
    Fault::NoCard
}

// Says that a file holds no card.
fn no_card(err: Stderr, name: &[u8]) -> Fault {
    program_console::warn(
        err,
        b"! the file is no well-formed card image, and nothing is changed: ",
    );
    program_console::warn(err, name);
    program_console::warn(err, b"\n");
    Fault::NoCard
}

// Reads the card of a file that is open. Answers how long its image is.
fn read(err: Stderr, file: &File, name: &[u8], out: &mut [u8]) -> Result<usize, Fault> {
    let n = match files::whole(file, out) {
        Ok(n) => n,
        Err(error) => return Err(unusable(err, name, error)),
    };
    if !store_image::well_formed(base::part(out, 0, n)) {
        return Err(no_card(err, name));
    }
    Ok(n)
}

// The card of a file, and how long its image is. The file is opened to be written, too, so that a card that cannot be kept is told before its
// first command.
pub(crate) fn load(
    rt: &impl Files<File = File>,
    err: Stderr,
    name: &[u8],
    out: &mut [u8],
) -> Result<(File, usize), Fault> {
    let file = match files::open_update(rt, name) {
        Ok(file) => file,
        Err(error) => return Err(unusable(err, name, error)),
    };
    let n = read(err, &file, name, out)?;
    Ok((file, n))
}

// The card image of a file that is only read. Answers its length.
pub(crate) fn copy(
    rt: &impl Files<File = File>,
    err: Stderr,
    name: &[u8],
    out: &mut [u8],
) -> Result<usize, Fault> {
    match files::open_read(rt, name) {
        Ok(file) => read(err, &file, name, out),
        Err(error) => Err(unusable(err, name, error)),
    }
}
