// What a card holds, written for a reader: applications, files, counts, room left, records.
use std::io::Stdout;
use store_kinds::rules::{RULES, Rule};
use store_kinds::{biometrics, rules};
use store_records::body;

// The name of a record file.
fn name(kind: usize) -> &'static str {
    match kind {
        0x0101 => "  EntryRecords           ",
        0x0102 => "  ExitRecords            ",
        0x011A => "  travel certificates    ",
        0x0203 => "  VisaRecords            ",
        0x021A => "  visa certificates      ",
        _ => "  biometrics certificates",
    }
}

// The records of a body, a line each.
fn records(out: Stdout, b: &[u8]) {
    for i in 1..=body::count(b) {
        program_console::word(out, b"   ");
        program_console::field(out, i);
        program_console::word(out, b":");
        program_console::spell(out, body::record(b, i));
        program_console::end(out);
    }
}

fn record_file(out: Stdout, r: &Rule, b: &[u8]) {
    program_console::word(out, name(r.kind).as_bytes());
    program_console::word(out, b" records");
    program_console::field(out, body::count(b));
    program_console::word(out, b" of");
    program_console::field(out, r.most);
    program_console::word(out, b", bytes left");
    program_console::field(out, free(b));
    program_console::end(out);
    records(out, b);
}

// The bytes of a body that no record uses.
fn free(b: &[u8]) -> usize {
    b.len().saturating_sub(body::used(b))
}

// The record files of an application.
fn record_files(out: Stdout, card: &[u8], application: usize) {
    for r in RULES.iter().filter(|r| r.application == application) {
        record_file(out, r, store_image::body(card, r.kind));
    }
}

fn biometrics_file(out: Stdout, n: u8, b: &[u8]) {
    program_console::word(out, b"  Biometrics");
    program_console::field(out, usize::from(n));
    let state = if biometrics::state(b) == 1 {
        " Activated, bytes written"
    } else {
        " Deactivated, bytes written"
    };
    program_console::word(out, state.as_bytes());
    program_console::field(out, biometrics::written(b));
    program_console::word(out, b" of");
    program_console::field(out, biometrics::room(b));
    program_console::word(out, b":");
    program_console::spell(out, biometrics::written_bytes(b));
    program_console::end(out);
}

fn biometrics_files(out: Stdout, card: &[u8]) {
    for n in 1..=64 {
        let kind = rules::biometrics_kind(n);
        if store_image::has(card, kind) {
            biometrics_file(out, n, store_image::body(card, kind));
        }
    }
}

fn application(out: Stdout, card: &[u8], a: usize, title: &[u8]) {
    if store_image::present(card, a) {
        program_console::word(out, title);
        record_files(out, card, a);
    }
}

// All of it.
pub(crate) fn card(out: Stdout, card: &[u8]) {
    program_console::word(out, b"card image of");
    program_console::field(out, card.len());
    program_console::word(out, b" bytes\n");
    application(out, card, 1, b" travel\n");
    application(out, card, 2, b" visa\n");
    application(out, card, 3, b" biometrics\n");
    biometrics_files(out, card);
}
