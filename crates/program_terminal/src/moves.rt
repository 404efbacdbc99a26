// A move of the card to a new file: `move FILE KIND LENGTH KIND LENGTH ...`, each kind in hexadecimal, the length of its room in decimal.
use crate::lines::How;
use crate::status::Fault;
use crate::text::Words;
use crate::{files, hex, listing, status};
use program_console::result;
use std::fs::File;
use std::io;
use std::io::{Error, Stderr, Stdout, Write};
use std::rt::Files;

// More rows than a card has kinds.
const MOST: usize = 100;

// A row of the list, from a kind and a length in digits; none where one of them is none.
fn row(kind: &[u8], length: &[u8]) -> Option<[u8; 6]> {
    let kind = u16::try_from(hex::number(kind, hex::Written::Hexadecimal)?)
        .ok()?
        .to_le_bytes();
    let length = u32::try_from(hex::number(length, hex::Written::Decimal)?)
        .ok()?
        .to_le_bytes();
    Some([length[0], length[1], length[2], length[3], kind[0], kind[1]])
}

// Reads rows into `list`, until no word is left. Gives the rows that were read; none where one cannot be read or there are too many.
fn rows<'a>(mut words: Words, list: &'a mut [u8]) -> Option<&'a [u8]> {
    for n in 0..MOST {
        let Some(kind) = words.next() else {
            return list.get(..n * 6);
        };
        let row = row(kind, words.next()?)?;
        base::put(list, n * 6, &row);
    }
    None
}

// Writes the new card's image whole, and waits until the device has it.
fn write(mut file: &File, bytes: &[u8]) -> io::Result<()> {
    file.write_all(bytes)?;
    file.sync_all()
}

// Says that a new card's file is not there, and why.
fn not_made(err: Stderr, name: &[u8], error: Error) -> Fault {
    program_console::warn(err, b"! the new card's file cannot be made: ");
    files::fail(err, name, error);
    Fault::Refused
}

// Makes a file of the new card's image, and says what it holds. A file that is not whole is removed.
fn save(
    rt: &impl Files<File = File>,
    out: Stdout,
    err: Stderr,
    name: &[u8],
    bytes: &[u8],
) -> Result<(), Fault> {
    let file = match files::create(rt, name) {
        Ok(file) => file,
        Err(error) => return Err(not_made(err, name, error)),
    };
    let written = write(&file, bytes);
    drop(file);
    if let Err(error) = written {
        let fault = not_made(err, name, error);
        let _ = files::remove(rt, name);
        return Err(fault);
    }
    program_console::word(out, b"= moved to a new file\n");
    listing::card(out, bytes);
    Ok(())
}

// Moves the card to a new file.
fn move_to(
    rt: &impl Files<File = File>,
    out: Stdout,
    err: Stderr,
    name: &[u8],
    list: &[u8],
    image: &[u8],
) -> Result<(), Fault> {
    let mut target = program_console::room();
    let r = malquindo::malquindo_move(image, list, &mut target);
    status::accepted(err, r)?;
    let moved = base::part(&target, 0, result::moved_length(r));
    save(rt, out, err, name, moved)
}

// A move's line, behind its first word.
pub(crate) fn line(
    rt: &impl Files<File = File>,
    mut words: Words,
    image: &[u8],
    how: How,
) -> Result<(), Fault> {
    let Some(name) = words.next() else {
        return Err(Fault::Unread);
    };
    let mut list = [0; 6 * MOST];
    let Some(list) = rows(words, &mut list) else {
        return Err(Fault::Unread);
    };
    move_to(rt, how.out, how.err, name, list, image)
}
