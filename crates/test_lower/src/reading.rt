// Cases of objects_reader::head, objects_reader::number, templates and the depth of objects_reader::reader.
use crate::{tell_flag, tell_number};
use objects_reader::head::{Head, HeadFault};
use objects_reader::number::number;
use objects_templates::{Search, Span};
use std::io::Stdout;

// Objects inside one another, five deep; without the first, four deep.
const FIVE: [[u16; 5]; 5] = [
    [0xA1, 4, 1, 0, 0],
    [0xA2, 3, 1, 0, 0],
    [0xA3, 2, 1, 0, 0],
    [0xA4, 1, 1, 0, 0],
    [0x81, 0, 1, 0, 9],
];

fn head(out: Stdout, h: Head) {
    match h {
        Ok((start, len)) => {
            program_console::field(out, start);
            program_console::field(out, len);
        }
        Err(HeadFault::NoTag) => program_console::word(out, b" no tag"),
        Err(HeadFault::NoLength) => program_console::word(out, b" no length"),
    }
}

fn length(out: Stdout, s: &[u8]) {
    program_console::word(out, b"head.length");
    head(out, objects_reader::head::length_at(s));
}

fn header(out: Stdout, s: &[u8], tag: usize) {
    program_console::word(out, b"head.header");
    head(out, objects_reader::head::header(s, (tag % 65536) as u16));
}

fn place(out: Stdout, p: Span) {
    program_console::field(out, p.at);
    program_console::field(out, p.len);
}

fn asked(out: Stdout, q: Search) {
    place(out, q.file);
    program_console::flag(out, q.one);
    program_console::field(out, q.offset);
    program_console::field(out, q.number);
    place(out, q.text);
}

fn search(out: Stdout, s: &[u8]) {
    program_console::word(out, b"search");
    match objects_templates::read_search(s) {
        Some(q) => asked(out, q),
        None => program_console::word(out, b" refused"),
    }
}

fn update(out: Stdout, s: &[u8]) {
    program_console::word(out, b"update");
    match objects_templates::read_update(s) {
        Some(w) => {
            program_console::field(out, w.offset);
            place(out, w.bytes);
        }
        None => program_console::word(out, b" refused"),
    }
}

fn offset(out: Stdout, s: &[u8]) {
    program_console::word(out, b"offset");
    match objects_templates::read_offset_object(s) {
        Some(n) => program_console::field(out, n),
        None => program_console::word(out, b" refused"),
    }
}

fn reference(out: Stdout, s: &[u8]) {
    program_console::word(out, b"reference");
    match objects_templates::read_reference(s) {
        Some(p) => place(out, p),
        None => program_console::word(out, b" refused"),
    }
}

// Whether objects that lie as deep as a form says can be read.
fn depth(out: Stdout, title: &[u8], s: &[u8], form: &[[u16; 5]]) {
    let read = objects_reader::reader::read(s, form);
    tell_flag(out, title, read.fault.is_none());
}

// Answers a case; whether it is one of these.
pub(crate) fn answer(out: Stdout, op: u8, x: usize, a: &[u8]) -> bool {
    match op {
        50 => length(out, a),
        51 => header(out, a, x),
        52 => tell_number(out, b"number", number(a)),
        53 => search(out, a),
        54 => update(out, a),
        55 => reference(out, a),
        56 => depth(out, b"depth.four", a, &FIVE[1..]),
        57 => depth(out, b"depth.five", a, &FIVE),
        58 => offset(out, a),
        _ => return false,
    }
    true
}
