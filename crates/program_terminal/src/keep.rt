// Keeping a change: the card's file holds it before the command is answered. Only what differs is written, and of that the head of the
// file's body last: the count of a record file, or the state and w of a biometrics file. Until then the card in the file is the old one.
ghost use Rattle.std.specs.Prelude.{◌≤◌};

use crate::files;
use crate::status::Fault;
use std::fs::File;
use std::io;
use std::io::Stderr;
use store_records::little::{read16, read32};

// The longest image.
const LONGEST: usize = 262144;

// The places from the first to behind the last where two images differ, which are as long as one another; none where they are the same.
fn difference(old: &[u8], new: &[u8]) -> Option<(usize, usize)> {
    let first = old.iter().zip(new).position(|(a, b)| a != b)?;
    let last = old.iter().zip(new).rposition(|(a, b)| a != b)?;
    Some((first, last + 1))
}

// How long the head of a body is: state and w, or a count.
fn head(kind: usize) -> usize
    ensures { result ≤ 5 }
{
    if 0x0400 < kind {
        return 5;
    }
    2
}

// Where the head ends in the section that a place lies in. The loop stays a `while`: a section says how long it is.
fn head_end(image: &[u8], place: usize) -> usize {
    let mut at = 0;
    while at < LONGEST {
        let next = at + 6 + read32(image, at);
        if place < next {
            return at + 6 + head(read16(image, at + 4));
        }
        at = next;
    }
    place
}

// Writes what stands from `from` to `end`; nothing where the end is not behind the start.
fn write(file: &File, image: &[u8], from: usize, end: usize) -> io::Result<()> {
    files::write_at(
        file,
        from,
        base::part(image, from, end.saturating_sub(from)),
    )
}

// Writes what differs from `from` to `end`, with the head last.
fn write_change(file: &File, image: &[u8], from: usize, end: usize) -> io::Result<()> {
    let behind_head = head_end(image, from);
    if behind_head <= from {
        return write(file, image, from, end);
    }
    write(file, image, behind_head, end)?;
    write(file, image, from, behind_head.min(end))
}

// Keeps what a command changed: `old` is what the file holds, and becomes `new`. Without a file there is nothing to keep.
pub(crate) fn change(
    err: Stderr,
    file: Option<&File>,
    old: &mut [u8],
    new: &[u8],
) -> Result<(), Fault> {
    let (Some(file), Some((from, end))) = (file, difference(old, new)) else {
        return Ok(());
    };
    if let Err(error) = write_change(file, new, from, end) {
        program_console::warn(
            err,
            b"! the change is not kept, so the command is not answered: ",
        );
        files::fail(err, b"the card's file cannot be written", error);
        return Err(Fault::NoCard);
    }
    base::put(old, from, base::part(new, from, end.saturating_sub(from)));
    Ok(())
}
