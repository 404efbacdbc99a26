// The certificate that a stamp names: `certificate NN` looks for it on the card at hand, `certificate NN FILE` then in the card image of
// FILE, which stands for the desk's own copy.
use crate::lines::How;
use crate::status::Fault;
use crate::text::Words;
use crate::{card, hex, status};
use program_console::result;
use std::fs::File;
use std::io::{Stderr, Stdout};
use std::rt::Files;

// The body of travel certificates of a card image; an empty part where there is none.
fn body(image: &[u8]) -> &[u8] {
    let r = malquindo::malquindo_file(image, 0x011A);
    base::part(image, result::file_place(r), result::file_length(r))
}

// Says where the certificate is not.
fn missing(out: Stdout, name: &[u8]) {
    if name.is_empty() {
        program_console::word(out, b" is missing: it is not on the card");
        return;
    }
    program_console::word(out, b" is missing: it is neither on the card nor in ");
    program_console::word(out, name);
}

// Says which of the two it is, and its bytes. The result of the functions for C tells that by a number.
fn found(out: Stdout, r: u64, card: &[u8], desk: &[u8], name: &[u8]) {
    let start = result::certificate_place(r);
    let n = result::certificate_length(r);
    match result::certificate_which(r) {
        1 => {
            program_console::word(out, b" is on the card:");
            program_console::spell(out, base::part(card, start, n));
        }
        2 => {
            program_console::word(out, b" is in ");
            program_console::word(out, name);
            program_console::word(out, b":");
            program_console::spell(out, base::part(desk, start, n));
        }
        _ => missing(out, name),
    }
}

// Asks for the certificate in two bodies, the second of which has a name, and writes the answer.
fn ask(
    out: Stdout,
    err: Stderr,
    reference: u8,
    card: &[u8],
    desk: &[u8],
    name: &[u8],
) -> Result<(), Fault> {
    let r = malquindo::malquindo_certificate(card, desk, reference);
    status::accepted(err, r)?;
    program_console::word(out, b"= certificate");
    program_console::spell(out, &[reference]);
    found(out, r, card, desk, name);
    program_console::end(out);
    Ok(())
}

// Asks with the card in a file as the desk's copy.
fn ask_with(
    rt: &impl Files<File = File>,
    out: Stdout,
    err: Stderr,
    reference: u8,
    name: &[u8],
    image: &[u8],
) -> Result<(), Fault> {
    let mut room = program_console::room();
    let Ok(n) = card::copy(rt, err, name, &mut room) else {
        return Err(Fault::Refused);
    };
    let desk = body(base::part(&room, 0, n));
    ask(out, err, reference, body(image), desk, name)
}

// A certificate's line, behind its first word. Without a copy it asks with one that has no certificate.
pub(crate) fn line(
    rt: &impl Files<File = File>,
    mut words: Words,
    image: &[u8],
    how: How,
) -> Result<(), Fault> {
    let reference = hex::byte(&mut words)?;
    let Some(name) = words.next() else {
        return ask(how.out, how.err, reference, body(image), &[0; 2], b"");
    };
    if words.next().is_some() {
        return Err(Fault::Unread);
    }
    ask_with(rt, how.out, how.err, reference, name, image)
}
