// Cases of store_image.
use crate::{tell_change, tell_flag, tell_update};
use std::io::Stdout;
use store_cut::Writing;

// Where the body of a kind is, and the body.
fn find(out: Stdout, image: &[u8], kind: usize) {
    program_console::word(out, b"image.find");
    match store_image::find(image, kind) {
        Some((start, len)) => {
            program_console::field(out, start);
            program_console::field(out, len);
        }
        None => program_console::word(out, b" none"),
    }
    program_console::flag(out, store_image::has(image, kind));
    program_console::bytes(out, store_image::body(image, kind));
}

// Which of the applications 1 to 3 are present, and what is said of 0 and 4, which are none.
fn present(out: Stdout, image: &[u8]) {
    program_console::word(out, b"image.present");
    for application in 0..=4 {
        program_console::flag(out, store_image::present(image, application));
    }
}

// Makes the first k stores of what is written to a file.
fn write(
    out: Stdout,
    title: &[u8],
    image: &mut [u8],
    kind: usize,
    writing: Writing,
    data: &[u8],
    k: usize,
) {
    let all = store_image::make_stores(image, kind, writing, data, k);
    tell_change(out, title, all, image);
}

fn update(out: Stdout, image: &mut [u8], kind: usize, offset: usize, written: &[u8]) {
    let done = store_image::update(image, kind, offset, written);
    tell_update(out, b"image.update", done, image);
}

// Answers a case; whether it is one of these.
pub(crate) fn answer(out: Stdout, op: u8, x: usize, y: usize, a: &mut [u8], b: &[u8]) -> bool {
    match op {
        10 => tell_flag(out, b"image.well_formed", store_image::well_formed(a)),
        11 => find(out, a, x),
        12 => present(out, a),
        13 => write(out, b"image.append", a, x, Writing::Record, b, y),
        14 => update(out, a, x, y, b),
        15 => write(out, b"image.activate", a, x, Writing::State, b, y),
        _ => return false,
    }
    true
}
