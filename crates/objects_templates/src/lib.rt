// The data fields that commands read: the rows of each, and what its values ask for.
#![tactic(auto)]

ghost use Rattle.std.specs.Prelude.{◌≡◌, ◌<◌, length};
ghost use Rattle.objects_reader.specs.Places.{number_at, Within};
ghost use Rattle.objects_templates.specs.Search.{ask_of, read_search};
ghost use Rattle.objects_templates.specs.Update.{read_update};
ghost use Rattle.objects_templates.specs.OffsetObject.{read_offset_object};
ghost use Rattle.objects_templates.specs.Reference.{read_reference};

use objects_reader::number::number;
pub use objects_reader::reader::Span;
use objects_reader::reader::{Reading, read};

// What a search asks for: the file reference, whether only the first match is wanted, the window, the string.
#[derive(Clone, Copy)]
pub struct Search {
    pub file: Span,
    pub one: bool,
    pub offset: usize,
    pub number: usize,
    pub text: Span,
}

// What an update writes, and from where on.
#[derive(Clone, Copy)]
pub struct Writes {
    pub offset: usize,
    pub bytes: Span,
}

// `7F76`{`51` file, `A1`{`80 01` 00 or 30, `B0`{`02` offset, `02` number}}, `A3`{`B1`{`81` string}}}
pub const SEARCH: [[u16; 5]; 10] = [
    [0x7F76, 9, 1, 0, 0],
    [0x51, 0, 1, 1, 2], // file
    [0xA1, 4, 1, 0, 0],
    [0x80, 0, 1, 1, 1], // mode
    [0xB0, 2, 1, 0, 0],
    [0x02, 0, 1, 1, 2], // offset
    [0x02, 0, 1, 1, 2], // number
    [0xA3, 2, 1, 0, 0],
    [0xB1, 1, 1, 0, 0],
    [0x81, 0, 1, 1, 65535], // string
];

// `54` offset, a row of two forms
const OFFSET: [u16; 5] = [0x54, 0, 1, 1, 3];

// `54` offset, `53` bytes
pub const UPDATE: [[u16; 5]; 2] = [OFFSET, [0x53, 0, 1, 0, 65535]];

// `54` offset alone
pub const OFFSET_ALONE: [[u16; 5]; 1] = [OFFSET];

// `51` file
pub const REFERENCE: [[u16; 5]; 1] = [[0x51, 0, 1, 1, 2]];

// The number that stands at the k-th place that r notes.
fn number_at(s: &[u8], r: Reading, k: usize) -> usize
    requires { (k < 8) × Within (length s.now) r }
    ensures { result ≡ number_at s.now r k }
{
    let p = r.places[k];
    number(&s[p.at..p.at + p.len])
}

// What the five values of a search ask for, where the mode is one of the two.
fn asked(s: &[u8], r: Reading) -> Option<Search>
    requires { Within (length s.now) r }
    ensures { result ≡ ask_of s.now r }
{
    let mode = number_at(s, r, 1);
    if mode == 0 || mode == 0x30 {
        Some(Search {
            file: r.places[0],
            one: mode == 0x30,
            offset: number_at(s, r, 2),
            number: number_at(s, r, 3),
            text: r.places[4],
        })
    } else {
        None
    }
}

// Reads the data of SEARCH RECORD.
pub fn read_search(s: &[u8]) -> Option<Search>
    ensures { result ≡ read_search s.now }
{
    let r = read(s, &SEARCH);
    if r.fault.is_none() { asked(s, r) } else { None }
}

// Reads the data of UPDATE BINARY.
pub fn read_update(s: &[u8]) -> Option<Writes>
    ensures { result ≡ read_update s.now }
{
    let r = read(s, &UPDATE);
    if r.fault.is_none() {
        Some(Writes {
            offset: number_at(s, r, 0),
            bytes: r.places[1],
        })
    } else {
        None
    }
}

// Reads the data of READ BINARY with INS B1.
pub fn read_offset_object(s: &[u8]) -> Option<usize>
    ensures { result ≡ read_offset_object s.now }
{
    let r = read(s, &OFFSET_ALONE);
    if r.fault.is_none() {
        Some(number_at(s, r, 0))
    } else {
        None
    }
}

// Reads the data of FMM.
pub fn read_reference(s: &[u8]) -> Option<Span>
    ensures { result ≡ read_reference s.now }
{
    let r = read(s, &REFERENCE);
    if r.fault.is_none() {
        Some(r.places[0])
    } else {
        None
    }
}
