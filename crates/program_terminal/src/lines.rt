// One line of the input and its answer.
use crate::status::{Fault, Status};
use crate::text::Words;
use crate::{
    certificates, chain, cuts, extensions, help, hex, keep, listing, moves, place, rights, stamps,
    status, text,
};
use program_console::{result, words};
use std::fs::File;
use std::io::{Stderr, Stdin, Stdout};
use std::rt::Files;

// Where lines come from, and where answers and what is wrong go.
#[derive(Clone, Copy)]
pub(crate) struct Streams {
    pub(crate) input: Stdin,
    pub(crate) out: Stdout,
    pub(crate) err: Stderr,
}

// How lines are answered: where to, the card's open file, none of the card to try, and whether a command is written out before its answer.
#[derive(Clone, Copy)]
pub(crate) struct How<'a> {
    pub(crate) out: Stdout,
    pub(crate) err: Stderr,
    pub(crate) file: Option<&'a File>,
    pub(crate) echo: bool,
}

// A line that is neither hexadecimal nor begins with a word that is known.
fn unreadable(err: Stderr, s: &[u8]) {
    program_console::warn(err, b"! this line cannot be read, and nothing is changed: ");
    program_console::warn(err, s);
    program_console::warn(err, b"\n");
}

// Opens a session.
fn open(out: Stdout, err: Stderr, certificates: &[u8], session: &mut [u8]) -> Result<(), Fault> {
    let r = malquindo::malquindo_open(certificates, session);
    status::accepted(err, r)?;
    program_console::word(out, b"= session opened\n");
    Ok(())
}

// Opens a session with the certificates of a line, in hexadecimal, or with rights in words: three certificates that grant the same.
fn open_line(out: Stdout, err: Stderr, words: Words, session: &mut [u8]) -> Result<(), Fault> {
    let mut bytes = program_console::buffer();
    if let Some(certificates) = hex::decode(words.rest, &mut bytes) {
        return open(out, err, certificates, session);
    }
    let granted = rights::read(words).ok_or(Fault::Unread)?;
    let chain = [granted; 3];
    open(out, err, chain.as_flattened(), session)
}

// The answer to a command: the response in hexadecimal, then what its status means.
fn response(out: Stdout, err: Stderr, r: u64, bytes: &[u8]) -> Result<(), Fault> {
    status::accepted(err, r)?;
    program_console::word(out, b"<");
    program_console::spell(out, base::part(bytes, 0, result::length(r)));
    program_console::word(out, b" : ");
    words::status(out, result::status(r));
    program_console::end(out);
    Ok(())
}

// Writes a command out.
fn echo(out: Stdout, command: &[u8]) {
    program_console::word(out, b">");
    program_console::spell(out, command);
    program_console::end(out);
}

// Sends a command to the card, keeps what it changed, and then says what came back, and what became of a chain.
fn send(
    command: &[u8],
    image: &mut [u8],
    kept: &mut [u8],
    session: &mut [u8],
    how: How,
) -> Result<(), Fault> {
    if how.echo {
        echo(how.out, command);
    }
    let before = chain::so_far(session);
    let mut bytes = program_console::buffer();
    let r = malquindo::malquindo_command(image, session, command, &mut bytes);
    keep::change(how.err, how.file, kept, image)?;
    let answered = response(how.out, how.err, r, &bytes);
    chain::tell(how.out, before, result::status(r), session);
    answered
}

// A command's line.
fn command(
    s: &[u8],
    image: &mut [u8],
    kept: &mut [u8],
    session: &mut [u8],
    how: How,
) -> Result<(), Fault> {
    let mut bytes = program_console::buffer();
    match hex::decode(s, &mut bytes) {
        Some(command) => send(command, image, kept, session, how),
        None => Err(Fault::Unread),
    }
}

// A line that is one word and asks about the card, the session or this program. Answers whether it is one.
fn told(out: Stdout, word: &[u8], image: &[u8], session: &[u8]) -> bool {
    match word {
        b"show" => listing::card(out, image),
        b"rights" => rights::tell(out, session),
        b"session" => place::tell(out, session),
        b"help" => help::all(out),
        _ => return false,
    }
    true
}

// A line that begins with its first word.
fn line(
    rt: &impl Files<File = File>,
    s: &[u8],
    image: &mut [u8],
    kept: &mut [u8],
    session: &mut [u8],
    how: How,
) -> Result<(), Fault> {
    let mut words = Words { rest: s };
    let word = words.next().unwrap_or(s);
    match word {
        b"open" => open_line(how.out, how.err, words, session),
        b"cut" => cuts::line(words, image, kept, session, how),
        b"move" => moves::line(rt, words, image, how),
        b"certificates" => extensions::line(words, session, how),
        b"certificate" => certificates::line(rt, words, image, how),
        b"stamp" => stamps::line(how.out, words, image),
        _ => {
            if words.next().is_none() && told(how.out, word, image, session) {
                return Ok(());
            }
            command(s, image, kept, session, how)
        }
    }
}

// What stands of a line before a comment, from its first word on.
fn content(s: &[u8]) -> &[u8] {
    let end = s.iter().position(|c| *c == b'#').unwrap_or(s.len());
    let s = base::part(s, 0, end);
    let start = s.iter().position(|c| !text::is_space(c));
    base::part(s, start.unwrap_or(end), end)
}

// Answers a line, which may have a comment, and spaces at both ends.
pub(crate) fn answer(
    rt: &impl Files<File = File>,
    s: &[u8],
    image: &mut [u8],
    kept: &mut [u8],
    session: &mut [u8],
    how: How,
) -> Status {
    let s = content(s);
    if s.is_empty() {
        return Status::Good;
    }
    match line(rt, s, image, kept, session, how) {
        Ok(()) => Status::Good,
        Err(Fault::Unread) => {
            unreadable(how.err, s);
            Status::Refused
        }
        Err(Fault::Refused) => Status::Refused,
        Err(Fault::NoCard) => Status::NoCard,
    }
}
