// How a line or all of them ended, and how a line says that it is not answered.
use program_console::{result, words};
use std::io::Stderr;

// How all lines ended, the graver the further down. The numbers are those of the exit status.
#[derive(Clone, Copy, PartialEq, Eq, PartialOrd, Ord)]
pub(crate) enum Status {
    Good,
    Refused,
    NoCard,
}

// Why a line has no answer.
#[derive(Clone, Copy)]
pub(crate) enum Fault {
    // it cannot be read
    Unread,
    // it was refused, and that was said
    Refused,
    // the card's file cannot be read or written, or is no card, and that was said
    NoCard,
}

// Says why the functions for C refused a call, where they did.
pub(crate) fn accepted(err: Stderr, r: u64) -> Result<(), Fault> {
    let number = result::refusal(r);
    if number == 0 {
        return Ok(());
    }
    words::refusal(err, number);
    Err(Fault::Refused)
}
