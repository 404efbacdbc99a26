// Cases of store_kinds::biometrics, and of store_cut with a state.
use crate::{tell_change, tell_update};
use std::io::Stdout;
use store_cut::Writing;
use store_kinds::biometrics;

// State, written length, room and content, and whether the body is well formed.
fn read(out: Stdout, body: &[u8]) {
    program_console::word(out, b"biometrics.read");
    program_console::field(out, biometrics::state(body));
    program_console::field(out, biometrics::written(body));
    program_console::field(out, biometrics::room(body));
    program_console::bytes(out, biometrics::written_bytes(body));
    program_console::flag(out, biometrics::well_formed(body));
}

fn update(out: Stdout, body: &mut [u8], offset: usize, written: &[u8]) {
    let done = biometrics::update(body, offset, written);
    tell_update(out, b"biometrics.update", done, body);
}

// Makes the first k stores of an activation, which looks at no data.
fn activate(out: Stdout, body: &mut [u8], data: &[u8], k: usize) {
    let all = store_cut::make_stores(body, Writing::State, data, k);
    tell_change(out, b"biometrics.activate", all, body);
}

// Answers a case; whether it is one of these.
pub(crate) fn answer(out: Stdout, op: u8, x: usize, a: &mut [u8], b: &[u8]) -> bool {
    match op {
        30 => read(out, a),
        31 => update(out, a, x, b),
        32 => activate(out, a, b, x),
        _ => return false,
    }
    true
}
