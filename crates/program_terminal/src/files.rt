// Files: by name, read until they end, and written at a place; and why one cannot be used.
ghost use Rattle.std.specs.Prelude.{◌≤◌, length, IfOk};

use std::fs::{File, OpenOptions};
use std::io::{Cursor, Error, Read, Seek, SeekFrom, Stderr, Write};
use std::rt::Files;
use std::{fs, io};

// The longest name that the system takes, and its errors for one that is longer and for one with a byte 0.
const LONGEST_NAME: usize = 4095;

const INVALID: i32 = 22;

const TOO_LONG: i32 = 36;

// The path that a name is.
fn path(name: &[u8]) -> io::Result<&str> {
    if LONGEST_NAME < name.len() {
        return Err(Error::from_raw_os_error(TOO_LONG));
    }
    if name.contains(&0) {
        return Err(Error::from_raw_os_error(INVALID));
    }
    std::str::from_utf8(name).map_err(|_| Error::other("The name is not UTF-8"))
}

// Opens a file to be read.
pub(crate) fn open_read(rt: &impl Files<File = File>, name: &[u8]) -> io::Result<File> {
    fs::open(rt, path(name)?)
}

// Opens a file to be read and written.
pub(crate) fn open_update(rt: &impl Files<File = File>, name: &[u8]) -> io::Result<File> {
    let path = path(name)?;
    OpenOptions::new().read(true).write(true).open(rt, path)
}

// Makes a file, to be written, where there is none of its name.
pub(crate) fn create(rt: &impl Files<File = File>, name: &[u8]) -> io::Result<File> {
    let path = path(name)?;
    OpenOptions::new()
        .write(true)
        .create_new(true)
        .open(rt, path)
}

// Removes a file.
pub(crate) fn remove(rt: &impl Files<File = File>, name: &[u8]) -> io::Result<()> {
    let path = path(name)?;
    fs::remove_file(rt, path)
}

// One read, to the start of room. Answers how many bytes it brought, none at the end of the file.
pub(crate) fn more(from: &mut impl Read, room: &mut [u8]) -> io::Result<usize>
    ensures { IfOk result (λ n. n ≤ length room.new) }
{
    from.read(room)
}

// Reads until the file ends or out is full. Answers how many bytes that were. The loop stays a `while`: a read says how far it goes on.
pub(crate) fn whole(mut file: &File, out: &mut [u8]) -> io::Result<usize> {
    let mut have = 0;
    while have < out.len() {
        let n = more(&mut file, &mut out[have..])?;
        if n == 0 {
            return Ok(have);
        }
        have += n;
    }
    Ok(have)
}

// Writes bytes at a place, and waits until the device has them.
pub(crate) fn write_at(mut file: &File, at: usize, bytes: &[u8]) -> io::Result<()> {
    if bytes.is_empty() {
        return Ok(());
    }
    file.seek(SeekFrom::Start(at as u64))?;
    file.write_all(bytes)?;
    file.sync_data()
}

// How much of the text of an error stands before the system's number of it.
fn before_number(s: &[u8]) -> usize {
    s.windows(11)
        .position(|w| matches!(w, b" (os error "))
        .unwrap_or(s.len())
}

// Writes a line to standard error: what failed, as the caller names it, a colon and the reason.
pub(crate) fn fail(err: Stderr, what: &[u8], error: Error) {
    let mut said = Cursor::new([0; 256]);
    let _ = write!(said, "{error}");
    let n = said.position() as usize;
    let room = said.into_inner();
    let reason = base::part(&room, 0, n);
    program_console::warn(err, what);
    program_console::warn(err, b": ");
    program_console::warn(err, base::part(reason, 0, before_number(reason)));
    program_console::warn(err, b"\n");
}
