// Cases of store_records::body, and of store_cut with a record.
use crate::{tell_change, tell_flag};
use std::io::Stdout;
use store_cut::Writing;
use store_records::body;

// The count and the bytes used.
fn used(out: Stdout, body: &[u8]) {
    program_console::word(out, b"body.used");
    program_console::field(out, body::count(body));
    program_console::field(out, body::used(body));
}

fn record(out: Stdout, body: &[u8], n: usize) {
    program_console::word(out, b"body.record");
    program_console::bytes(out, body::record(body, n));
}

// Makes the first k stores of a record.
fn append(out: Stdout, body: &mut [u8], record: &[u8], k: usize) {
    let all = store_cut::make_stores(body, Writing::Record, record, k);
    tell_change(out, b"body.append", all, body);
}

// Answers a case; whether it is one of these.
pub(crate) fn answer(out: Stdout, op: u8, x: usize, y: usize, a: &mut [u8], b: &[u8]) -> bool {
    match op {
        20 => used(out, a),
        21 => tell_flag(out, b"body.fits", body::append_fits(a, x)),
        22 => record(out, a, x),
        23 => tell_flag(out, b"body.well_formed", body::well_formed(a, x, y)),
        24 => append(out, a, b, x),
        _ => return false,
    }
    true
}
