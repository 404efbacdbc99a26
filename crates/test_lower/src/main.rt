// Runs outside cases through the lower layers, and answers each by a line. Standard input is the cases, one behind the other:
// what to do (1 byte); five numbers, each as a byte that says how many bytes it has and these, little-endian: x, y, the length of a,
// how many zeros are put behind a, the length of b; then a and b. A function works on a copy of a, so that what it writes is seen.
#![tactic(auto)]

mod biometrics;
mod body;
mod images;
mod reading;
mod rules;
mod windows;
mod writing;

use program_console::cases::{Cases, Stop};
use std::alloc::{AllocError, Global};
use std::io::Stdout;
use std::process::ExitCode;

// How many bytes a with its zeros may have.
const ROOM: usize = 524288;

// The program at work: where it writes and where its memory comes from, and the status that it ends with.
#[derive(Drop)]
struct Lower<'s> {
    out: Stdout,
    alloc: Global,
    status: &'s mut ExitCode,
}

// Writes what was asked and the answer, a number.
fn tell_number(out: Stdout, title: &[u8], n: usize) {
    program_console::word(out, title);
    program_console::field(out, n);
}

// The same with a yes or a no.
fn tell_flag(out: Stdout, title: &[u8], yes: bool) {
    program_console::word(out, title);
    program_console::flag(out, yes);
}

// The same with a number, as of how many stores there are in all, and the bytes that were changed.
fn tell_change(out: Stdout, title: &[u8], n: usize, changed: &[u8]) {
    tell_number(out, title, n);
    program_console::bytes(out, changed);
}

// The same with whether an update was made.
fn tell_update(out: Stdout, title: &[u8], done: bool, changed: &[u8]) {
    tell_flag(out, title, done);
    program_console::bytes(out, changed);
}

// The n bytes that s starts with, and what stands behind them.
fn bytes_at(s: &[u8], n: usize) -> Result<(&[u8], &[u8]), Stop> {
    s.split_at_checked(n).ok_or(Stop::Torn)
}

// The number that s starts with, and what stands behind it. Of its bytes the first eight count.
fn number_at(s: &[u8]) -> Result<(usize, &[u8]), Stop> {
    let (length, s) = s.split_first().ok_or(Stop::Torn)?;
    let (digits, rest) = bytes_at(s, usize::from(*length))?;
    let mut number = [0; 8];
    base::put(&mut number, 0, base::part(digits, 0, 8));
    Ok((usize::from_le_bytes(number), rest))
}

// Hands a case to the module that knows it. Answers whether one did.
fn answer(out: Stdout, op: u8, x: usize, y: usize, a: &mut [u8], b: &[u8]) -> bool {
    match op / 10 {
        1 => images::answer(out, op, x, y, a, b),
        2 => body::answer(out, op, x, y, a, b),
        3 => biometrics::answer(out, op, x, a, b),
        4 => rules::answer(out, op, x, y, a),
        5 => reading::answer(out, op, x, a),
        6 => windows::answer(out, op, x, y, a, b),
        7 => writing::answer(out, op, x, y, a, b),
        _ => false,
    }
}

// A copy of a with zeros behind it; no byte where they are more than its room has.
fn copied(alloc: Global, a: &[u8], zeros: usize) -> Result<Vec<u8>, AllocError> {
    if ROOM.saturating_sub(a.len()) < zeros {
        return Ok(Vec::new(alloc));
    }
    let mut copy = Vec::from_slice(alloc, a)?;
    copy.resize(a.len() + zeros, 0)?;
    Ok(copy)
}

impl<'a> Cases<'a> for Lower<'_> {
    fn answer(&mut self, s: &'a [u8]) -> Result<&'a [u8], Stop> {
        let (op, s) = s.split_first().ok_or(Stop::Torn)?;
        let (x, s) = number_at(s)?;
        let (y, s) = number_at(s)?;
        let (length, s) = number_at(s)?;
        let (zeros, s) = number_at(s)?;
        let (others, s) = number_at(s)?;
        let (a, s) = bytes_at(s, length)?;
        let (b, rest) = bytes_at(s, others)?;
        let mut copy = copied(self.alloc, a, zeros)?;
        if !answer(self.out, *op, x, y, &mut copy, b) {
            return Err(Stop::Torn);
        }
        program_console::end(self.out);
        Ok(rest)
    }

    fn fail(&mut self) {
        *self.status = ExitCode::FAILURE;
    }
}

fn main(rt: HostRuntime) -> ExitCode {
    let mut input = program_console::room();
    let n = program_console::read_full(rt.stdin(), &mut input);
    let mut status = ExitCode::SUCCESS;
    let lower = Lower {
        out: rt.stdout(),
        alloc: rt.alloc(),
        status: &mut status,
    };
    program_console::cases::answer_or_warn(rt.stdout(), rt.stderr(), &input[..n], lower);
    status
}
