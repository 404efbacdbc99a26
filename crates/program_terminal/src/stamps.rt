// A record as a stamp: `stamp NN` reads record NN of EntryRecords, `stamp NN exit` that of ExitRecords. What is wrong with it is told by an arrow
// under its bytes.
use crate::hex;
use crate::status::Fault;
use crate::text::Words;
use program_console::result;
use std::io::Stdout;
use store_records::body;

// How many bytes stand in a row.
const ROW: usize = 16;

// The fields, each with its name and whether its value is text.
const FIELDS: [(&str, bool); 13] = [
    ("  State (copy)           ", true),
    ("  State                  ", true),
    ("  visa approvals         ", true),
    ("  date                   ", true),
    ("  authority              ", true),
    ("  location               ", true),
    ("  inspector              ", true),
    ("  result                 ", true),
    ("  mode                   ", true),
    ("  duration               ", false),
    ("  conditions             ", true),
    ("  signature              ", false),
    ("  certificate reference  ", false),
];

// A value: text between quotation marks, which no text has, other bytes in hexadecimal, and a word where there is none.
fn value(out: Stdout, is_text: bool, v: &[u8]) {
    if v.is_empty() {
        program_console::word(out, b" (absent)");
    } else if is_text {
        program_console::word(out, b" \"");
        program_console::word(out, v);
        program_console::word(out, b"\"");
    } else {
        program_console::spell(out, v);
    }
}

// The fields, a line each: of the places of a field the first says where it is, the second how long.
fn fields(out: Stdout, record: &[u8], places: &[u32]) {
    let (places, _) = places.as_chunks::<2>();
    for (field, place) in FIELDS.iter().zip(places) {
        program_console::word(out, field.0.as_bytes());
        let v = base::part(record, place[0] as usize, place[1] as usize);
        value(out, field.1, v);
        program_console::end(out);
    }
}

// The reason of a fault.
fn reason(n: u64) -> &'static str {
    match n {
        1 => "wrong tag: an object is missing, out of order, or too many",
        2 => {
            "wrong length: none, past the end, not in its shortest form, or not allowed by Table 11"
        }
        _ => "wrong content: not allowed by Table 11, or not the State that stands first",
    }
}

// An arrow under the byte with this place in its row.
fn arrow(out: Stdout, at: usize, why: u64) {
    let spaces = [b' '; 64];
    program_console::word(out, base::part(&spaces, 0, at % ROW * 3 + 2));
    program_console::word(out, b"^ ");
    program_console::word(out, reason(why).as_bytes());
    program_console::end(out);
}

// A row of bytes, and the arrow where the fault is in it.
fn row(out: Stdout, bytes: &[u8], here: bool, at: usize, why: u64) {
    if !bytes.is_empty() {
        program_console::word(out, b" ");
    }
    program_console::spell(out, bytes);
    program_console::end(out);
    if here {
        arrow(out, at, why);
    }
}

// The bytes of a record, and where the fault is. Behind the last byte there is a row only where the fault is there.
fn rows(out: Stdout, record: &[u8], at: usize, why: u64) {
    for (n, bytes) in record.chunks(ROW).enumerate() {
        row(out, bytes, at / ROW == n, at, why);
    }
    if record.len() % ROW == 0 && at / ROW == record.len() / ROW {
        row(out, &[], true, at, why);
    }
}

// What stands before the answer: the number, and which file it is of.
fn title(out: Stdout, number: u8, file: &str) {
    program_console::word(out, b"= record");
    program_console::spell(out, &[number]);
    program_console::word(out, file.as_bytes());
}

// Reads a record as a stamp, and writes what it says.
fn tell(out: Stdout, record: &[u8]) {
    let mut places: [u32; 26] = [0; 26];
    let r = malquindo::malquindo_stamp_read(record, &mut places);
    if r == 0 {
        program_console::word(out, b" is a stamp\n");
        fields(out, record, &places);
        return;
    }
    let at = result::stamp_offset(r);
    program_console::word(out, b" is no stamp: first fault at offset");
    program_console::field(out, at);
    program_console::end(out);
    rows(out, record, at, result::stamp_reason(r));
}

// The record with this number, where the file has it.
fn find(out: Stdout, b: &[u8], number: u8, file: &str) {
    title(out, number, file);
    let n = usize::from(number);
    if 0 < n && n <= body::count(b) {
        tell(out, body::record(b, n));
    } else {
        program_console::word(out, b" is missing\n");
    }
}

// A stamp's line, behind its first word. A card that lacks the file has an empty body for it.
pub(crate) fn line(out: Stdout, mut words: Words, image: &[u8]) -> Result<(), Fault> {
    let number = hex::byte(&mut words)?;
    let (kind, file) = match words.next() {
        None => (0x0101, " of EntryRecords"),
        Some(b"exit") if words.rest.is_empty() => (0x0102, " of ExitRecords"),
        Some(_) => return Err(Fault::Unread),
    };
    find(out, store_image::body(image, kind), number, file);
    Ok(())
}
