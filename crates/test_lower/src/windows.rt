// Cases of window.
use crate::tell_flag;
use std::io::Stdout;

fn window(out: Stdout, record: &[u8], offset: usize, number: usize) {
    program_console::word(out, b"window");
    program_console::bytes(out, machine_window::window(record, offset, number));
}

// Answers a case; whether it is one of these.
pub(crate) fn answer(out: Stdout, op: u8, x: usize, y: usize, a: &[u8], b: &[u8]) -> bool {
    match op {
        60 => window(out, a, x, y),
        61 => tell_flag(out, b"occurs", machine_window::occurs(a, b)),
        62 => tell_flag(out, b"matches", machine_window::matches(a, x, y, b)),
        _ => return false,
    }
    true
}
