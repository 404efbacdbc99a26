// Status words and refusals in words.
use crate::{warn, word};
use std::io::{Stderr, Stdout};

// What each status word means.
const MEANINGS: [(u64, &str); 15] = [
    (0x9000, "Normal processing"),
    (0x6282, "No record matches"),
    (0x6700, "Wrong length"),
    (0x6883, "Last command of the chain expected"),
    (0x6981, "Command incompatible with file structure"),
    (0x6982, "Security status not satisfied"),
    (0x6986, "Command not allowed, no current file"),
    (0x6A80, "Incorrect parameters in the data field"),
    (0x6A82, "File or application not found"),
    (0x6A83, "Record not found"),
    (0x6A84, "Not enough memory space in the file"),
    (0x6A86, "Incorrect parameters P1-P2"),
    (0x6B00, "Wrong offset, at or past the end of the file"),
    (0x6D00, "Instruction not supported"),
    (0x6E00, "Class not supported"),
];

// What is told of a refusal, by its number.
const REASONS: [(u64, &str); 11] = [
    (1, "! refused (1): the response buffer is too short"),
    (2, "! refused (2): the card image is not well formed"),
    (
        3,
        "! refused (3): rights are 60 bytes, three certificates of 20",
    ),
    (4, "! refused (4): the session does not fit the card"),
    (
        7,
        "! refused (7): an extension is not well formed, or the rights of a known one have the wrong size",
    ),
    (
        8,
        "! refused (8): a certificate has a known extension twice",
    ),
    (
        9,
        "! refused (9): the card or the copy has no well-formed body of travel certificates",
    ),
    (10, "! refused (10): these rooms make no well-formed card"),
    (11, "! refused (11): a file of the card has no room"),
    (12, "! refused (12): a room is too small for its file"),
    (13, "! refused (13): the target is too short"),
];

// The text that a table has for a number, `otherwise` where it has none.
fn text_of(table: &[(u64, &'static str)], number: u64, otherwise: &'static str) -> &'static str {
    table
        .iter()
        .find(|row| row.0 == number)
        .map_or(otherwise, |row| row.1)
}

// What a status word means.
pub fn status(out: Stdout, w: u64)
    ensures { Unit {0} }
{
    word(out, text_of(&MEANINGS, w, "Unknown status").as_bytes());
}

// Writes a line that says why a call was refused, to standard error.
pub fn refusal(err: Stderr, number: u64)
    ensures { Unit {0} }
{
    warn(err, text_of(&REASONS, number, "! refused").as_bytes());
    warn(err, b"\n");
}
