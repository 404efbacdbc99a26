// A session's application, place and chain in words.
use crate::chain;
use std::io::Stdout;
use store_records::little::read16;

// The application with a number.
fn application(number: usize) -> &'static str {
    match number {
        0 => "master file",
        1 => "travel",
        2 => "visa",
        _ => "biometrics",
    }
}

// Writes a file by its id. No id has two meanings within an application, and only that of certificates is in more than one.
fn file(out: Stdout, id: usize) {
    let name = match id {
        0x0101 => ", EntryRecords",
        0x0102 => ", ExitRecords",
        0x0103 => ", VisaRecords",
        0x011A => ", certificates",
        0x2F00 => ", EF.DIR",
        0x2F01 => ", EF.ATR/INFO",
        _ => {
            program_console::word(out, b", Biometrics");
            return program_console::field(out, id % 256);
        }
    };
    program_console::word(out, name.as_bytes());
}

// Writes a line with the application, the current file, the current record and the open chain.
pub(crate) fn tell(out: Stdout, session: &[u8]) {
    program_console::word(out, b"= session: ");
    program_console::word(out, application(base::byte(session, 20)).as_bytes());
    let place = base::byte(session, 21);
    if place == 0 {
        program_console::word(out, b", no file");
    } else {
        file(out, read16(session, 22));
    }
    if place == 2 {
        program_console::word(out, b", record");
        program_console::field(out, base::byte(session, 24));
    }
    chain::name(out, session);
    program_console::end(out);
}
