// Cases of writer. The number that is written is one of b's bytes, the highest first.
use crate::{tell_change, tell_number};
use objects_reader::number::number;
use objects_writer::{fewest, longest_within};
use std::io::Stdout;

fn put_head(out: Stdout, body: &mut [u8], at: usize, tag: usize, b: &[u8]) {
    let end = objects_writer::put_head(body, at, tag, number(b));
    tell_change(out, b"put_head", end, body);
}

fn put_number(out: Stdout, body: &mut [u8], at: usize, tag: usize, b: &[u8]) {
    let end = objects_writer::put_number(body, at, (tag % 256) as u8, number(b));
    tell_change(out, b"put_number", end, body);
}

// Answers a case; whether it is one of these.
pub(crate) fn answer(out: Stdout, op: u8, x: usize, y: usize, a: &mut [u8], b: &[u8]) -> bool {
    match op {
        70 => tell_number(out, b"fewest", fewest(x)),
        71 => put_head(out, a, x, y, b),
        72 => put_number(out, a, x, y, b),
        73 => tell_number(
            out,
            b"longest_within",
            longest_within((x % 65536) as u16, y),
        ),
        _ => return false,
    }
    true
}
