// The rights of a session in words: what a certificate grants. A word is the name of an application, alone or with what may be done there,
// as in `travel=read,append`; or that of a biometrics file, as in `biometrics5=write`. To name an application sets its flag, by which it
// may be selected. What is told can be given to `open` again.
ghost use Rattle.std.specs.Prelude.{◌<◌};

use crate::hex;
use crate::text::Words;
use std::io::Stdout;

// More words than there are names.
const MOST: usize = 100;

// What a name has rights for.
#[derive(Clone, Copy, PartialEq, Eq)]
enum Kind {
    // records and certificates
    Records,
    // certificates alone
    Certificates,
    // a biometrics file
    File,
}

// The rights to records and certificates, each with its bit.
const RECORD_RIGHTS: [(&str, u8); 4] = [
    ("read", 1),
    ("append", 2),
    ("read-certificates", 4),
    ("append-certificates", 8),
];

// The rights to certificates alone.
const CERTIFICATE_RIGHTS: [(&str, u8); 2] = [("read-certificates", 1), ("append-certificates", 2)];

// The rights to a biometrics file: `write` counts while it is Deactivated, `read` while it is Activated.
const FILE_RIGHTS: [(&str, u8); 2] = [("read", 1), ("write", 2)];

// The rights that a kind has.
fn rights_of(kind: Kind) -> &'static [(&'static str, u8)] {
    match kind {
        Kind::Records => &RECORD_RIGHTS,
        Kind::Certificates => &CERTIFICATE_RIGHTS,
        Kind::File => &FILE_RIGHTS,
    }
}

// Where the rights of a name stand in a certificate: the byte, the value of its lowest bit there, and the application's flag.
#[derive(Clone, Copy)]
struct Named {
    kind: Kind,
    at: usize,
    unit: u8,
    flag: u8,
}

// The value of the lower of the two bits that Biometrics n + 1 has in its byte.
fn unit(n: usize) -> u8
    ensures { 0 < result }
{
    match n % 4 {
        0 => 64,
        1 => 16,
        2 => 4,
        _ => 1,
    }
}

// Biometrics n.
fn biometrics_file(n: usize) -> Option<Named> {
    if n < 1 || 64 < n {
        return None;
    }
    Some(Named {
        kind: Kind::File,
        at: 4 + (n - 1) / 4,
        unit: unit(n - 1),
        flag: 4,
    })
}

// An application by its name; none where there is no such.
fn application(name: &[u8]) -> Option<Named> {
    let (kind, at, flag) = match name {
        b"travel" => (Kind::Records, 1, 1),
        b"visa" => (Kind::Records, 2, 2),
        b"biometrics" => (Kind::Certificates, 3, 4),
        _ => return None,
    };
    Some(Named {
        kind,
        at,
        unit: 1,
        flag,
    })
}

// What a name means; none where it means nothing.
fn meant(name: &[u8]) -> Option<Named> {
    if let Some(named) = application(name) {
        return Some(named);
    }
    biometrics_file(hex::number(name.strip_prefix(b"biometrics")?, hex::Written::Decimal)?)
}

// The bits of a right that a kind has, or of all of them; none where it has no such.
fn bits(kind: Kind, right: &[u8]) -> Option<u8> {
    let rights = rights_of(kind);
    if matches!(right, b"all") {
        return Some(rights.iter().fold(0, |all, known| all | known.1));
    }
    rights
        .iter()
        .find(|known| known.0.as_bytes() == right)
        .map(|known| known.1)
}

// Sets bits of a byte.
fn grant(rights: &mut [u8; 20], at: usize, bits: u8) {
    if let Some(byte) = rights.get_mut(at) {
        *byte |= bits;
    }
}

// Grants what a list of rights names, with a comma between two. None where it cannot be read.
fn grant_list(s: &[u8], name: Named, rights: &mut [u8; 20]) -> Option<()> {
    for right in s.split(|c| *c == b',') {
        let bits = bits(name.kind, right)?;
        grant(rights, name.at, bits.wrapping_mul(name.unit));
    }
    Some(())
}

// Grants what a word says: a name, alone or with its list behind `=`. None where it cannot be read.
fn grant_word(s: &[u8], rights: &mut [u8; 20]) -> Option<()> {
    match s {
        b"all" => {
            *rights = [0xFF; 20];
            return Some(());
        }
        b"none" => return Some(()),
        _ => {}
    }
    let end = s.iter().position(|c| *c == b'=');
    let name = meant(base::part(s, 0, end.unwrap_or(s.len())))?;
    grant(rights, 0, name.flag);
    match end {
        Some(end) => grant_list(&s[end + 1..], name, rights),
        None if name.kind == Kind::File => None,
        None => Some(()),
    }
}

// A certificate that grants what the words of a line say; none where one cannot be read or there are too many.
pub(crate) fn read(mut words: Words) -> Option<[u8; 20]> {
    let mut rights = [0; 20];
    for _ in 0..MOST {
        let Some(word) = words.next() else {
            return Some(rights);
        };
        grant_word(word, &mut rights)?;
    }
    None
}

// Writes the rights that bits are: `=` before the first, a comma before any other.
fn tell_bits(out: Stdout, kind: Kind, bits: u8) {
    let rights = rights_of(kind).iter().filter(|known| bits & known.1 != 0);
    for (i, known) in rights.enumerate() {
        program_console::word(out, if i == 0 { b"=" } else { b"," });
        program_console::word(out, known.0.as_bytes());
    }
}

// Writes what a session may do in an application.
fn tell_application(out: Stdout, name: &[u8], kind: Kind, bits: u8) {
    program_console::word(out, name);
    tell_bits(out, kind, bits);
}

// Writes what a session may do with the biometrics files, whose bits are these bytes.
fn tell_files(out: Stdout, bytes: &[u8]) {
    for n in 0..64 {
        let bits = base::byte(bytes, n / 4) as u8 / unit(n) % 4;
        if bits != 0 {
            program_console::word(out, b" biometrics");
            program_console::number(out, n as u64 + 1);
            tell_bits(out, Kind::File, bits);
        }
    }
}

// Every right.
const ALL: [u8; 20] = [
    7, 15, 15, 3, 255, 255, 255, 255, 255, 255, 255, 255, 255, 255, 255, 255, 255, 255, 255, 255,
];

// Writes the rights of a session, which are in cleared form. The name of the biometrics application alone is left out where a file's name says
// it, too.
pub(crate) fn tell(out: Stdout, session: &[u8]) {
    program_console::word(out, b"= rights:");
    if session.starts_with(&ALL) {
        program_console::word(out, b" all\n");
        return;
    }
    let [flags, travel, visa, certificates] = session.first_chunk().copied().unwrap_or([0; 4]);
    if flags == 0 {
        program_console::word(out, b" none\n");
        return;
    }
    let files = base::part(session, 4, 16);
    if flags & 1 != 0 {
        tell_application(out, b" travel", Kind::Records, travel);
    }
    if flags & 2 != 0 {
        tell_application(out, b" visa", Kind::Records, visa);
    }
    if flags & 4 != 0 && (certificates != 0 || files.iter().all(|byte| *byte == 0)) {
        tell_application(out, b" biometrics", Kind::Certificates, certificates);
    }
    tell_files(out, files);
    program_console::end(out);
}
