// The input: read in pieces, cut into lines, each line answered as soon as it is whole. No part of it has a length that is bounded but a line.
use crate::lines::How;
use crate::status::Status;
use crate::{files, lines};
use std::fs::File;
use std::io::{Error, Stderr, Stdin};
use std::rt::Files;

// No input brings as many pieces: each has a byte at least.
const MOST_PIECES: u64 = 9223372036854775807;

// How far the reading is: how many bytes of a line were kept, none where it has more than there is room for, and the gravest end of a line so far.
// They stand in a room beside it, and in no Vec: how long a line may be is a rule of the terminal, and no memory can be missing.
#[derive(Clone, Copy)]
struct Reading {
    kept: Option<usize>,
    status: Status,
}

// The start of the input.
const START: Reading = Reading {
    kept: Some(0),
    status: Status::Good,
};

// Answers a line, at the end of which the reading is.
fn answer(
    rt: &impl Files<File = File>,
    line: &[u8],
    r: Reading,
    image: &mut [u8],
    kept: &mut [u8],
    session: &mut [u8],
    how: How,
) -> Reading {
    let status = match r.kept {
        Some(n) => lines::answer(rt, base::part(line, 0, n), image, kept, session, how),
        None => {
            program_console::warn(
                how.err,
                b"! this line is longer than 65,536 bytes, and nothing is changed\n",
            );
            Status::Refused
        }
    };
    Reading {
        status: r.status.max(status),
        ..START
    }
}

// One character more of a line that does not end yet, of which n bytes were kept. Answers how many are kept then.
fn add(line: &mut [u8], kept: Option<usize>, c: u8) -> Option<usize> {
    let n = kept?;
    *line.get_mut(n)? = c;
    Some(n + 1)
}

// Reads a piece of the input, and answers the lines that end in it.
fn piece(
    rt: &impl Files<File = File>,
    s: &[u8],
    line: &mut [u8],
    so_far: Reading,
    image: &mut [u8],
    kept: &mut [u8],
    session: &mut [u8],
    how: How,
) -> Reading {
    let mut r = so_far;
    for c in s {
        if *c != b'\n' {
            r.kept = add(line, r.kept, *c);
            continue;
        }
        r = answer(rt, line, r, image, kept, session, how);
        if r.status == Status::NoCard {
            return r;
        }
    }
    r
}

// Says that the input cannot be read.
fn unreadable(err: Stderr, error: Error, so_far: Status) -> Status {
    program_console::warn(err, b"! the input cannot be read: ");
    files::fail(err, b"standard input", error);
    so_far.max(Status::Refused)
}

// Reads and answers lines until the input ends or the card cannot be kept. The last line need not end.
fn pieces(
    rt: &impl Files<File = File>,
    mut input: Stdin,
    room: &mut [u8],
    line: &mut [u8],
    image: &mut [u8],
    kept: &mut [u8],
    session: &mut [u8],
    how: How,
) -> Status {
    let mut r = START;
    for _ in 0..MOST_PIECES {
        let n = match files::more(&mut input, room) {
            Ok(0) => return answer(rt, line, r, image, kept, session, how).status,
            Ok(n) => n,
            Err(error) => return unreadable(how.err, error, r.status),
        };
        let s = base::part(room, 0, n);
        r = piece(rt, s, line, r, image, kept, session, how);
        if r.status == Status::NoCard {
            return r.status;
        }
    }
    r.status
}

// Answers all lines, in a session that has all rights at the start. `kept` is what the card's file holds.
pub(crate) fn answer_all(
    rt: &impl Files<File = File>,
    input: Stdin,
    image: &mut [u8],
    kept: &mut [u8],
    how: How,
) -> Status {
    let mut session = [0; 1054];
    malquindo::malquindo_open(&[0xFF; 60], &mut session);
    let mut room = program_console::large_buffer();
    let mut line = program_console::large_buffer();
    pieces(
        rt,
        input,
        &mut room,
        &mut line,
        image,
        kept,
        &mut session,
        how,
    )
}
