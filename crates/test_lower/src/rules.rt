// Cases of store_kinds::rules.
use crate::tell_flag;
use std::io::Stdout;
use store_kinds::rules::{Key, RULES, Rule, find_rule, kind_ok};

fn rule(out: Stdout, found: Option<Rule>) {
    match found {
        Some(r) => {
            program_console::field(out, r.kind);
            program_console::field(out, r.application);
            program_console::field(out, r.id);
            program_console::field(out, r.short);
            program_console::field(out, r.longest);
            program_console::field(out, r.most);
        }
        None => program_console::word(out, b" none"),
    }
}

// The rule with a key.
fn by_key(out: Stdout, title: &[u8], key: Key) {
    program_console::word(out, title);
    rule(out, find_rule(key));
}

fn by_place(out: Stdout, i: usize) {
    program_console::word(out, b"rules.row");
    rule(out, RULES.get(i).copied());
}

// Answers a case; whether it is one of these.
pub(crate) fn answer(out: Stdout, op: u8, x: usize, y: usize, a: &[u8]) -> bool {
    match op {
        40 => by_key(out, b"rules.kind", Key::Kind(x)),
        41 => by_key(out, b"rules.id", Key::Id(x, y)),
        42 => by_key(out, b"rules.short", Key::Short(x, y)),
        43 => by_place(out, x),
        44 => tell_flag(out, b"rules.kind_ok", kind_ok(x, a)),
        _ => return false,
    }
    true
}
