// What a stamp says (Table 11 of the ICAO report): the places of its fields, or the first thing that is wrong with it. The reader of data
// objects goes along the tags and lengths and stops at the first that is wrong. It notes a field's place only where all before it is
// right, so a wrong content at a noted place stands before the reader's own fault, and no places are compared.
#![tactic(auto)]

pub mod chars;

ghost use Rattle.std.specs.Prelude.{◌≡◌, ℕ, ◌<◌, ◌≤◌, length};
ghost use Rattle.std.proofs.lemmas.List.Edits.{sets};
ghost use Rattle.objects_reader.specs.Places.{place_pairs, span_at};
ghost use Rattle.objects_stamp.specs.Rules.{chars_of, content_ok};
ghost use Rattle.objects_stamp.specs.Loops.{of_fault, object_at, tells};
ghost use Rattle.objects_stamp.specs.Read.{read_stamp, read_stamp_into};

use base::natural::saturating_sub;
use base::{part, same_bytes};
use chars::{Chars, allows_all};
use objects_reader::reader::{Fault, Reading, read_all};

// What is wrong with an object: it is missing, out of order or surplus; its length is none that fits; or its value is none allowed.
#[derive(Clone, Copy)]
pub enum Reason {
    WrongTag,
    WrongLength,
    WrongContent,
}

// Nothing is wrong; or this is, as (reason, at), with the object whose first byte stands (or should stand) at that place.
pub type Finding = Result<(), (Reason, usize)>;

// Why a list does not get the places of a stamp: it is too short for them; or the record is no stamp, for this reason, at that place.
#[derive(Clone, Copy)]
pub enum StampFault {
    ShortList,
    Wrong(Reason, usize),
}

// Table 11: tag, rows inside, 0 where optional, fewest and most bytes.
pub const STAMP: [[u16; 5]; 14] = [
    [0x5F44, 0, 1, 3, 3], // State (copy)
    [0x73, 10, 1, 0, 0],
    [0x5F44, 0, 1, 3, 3], // State
    [0x5F4C, 0, 0, 1, 50], // visa approvals
    [0x5F45, 0, 1, 8, 8], // date
    [0x5F4B, 0, 1, 1, 10], // authority
    [0x5F46, 0, 1, 1, 10], // location
    [0x5F4A, 0, 1, 1, 20], // inspector
    [0x5F4D, 0, 0, 1, 50], // result
    [0x5F49, 0, 0, 1, 1], // mode
    [0x5F48, 0, 0, 1, 2], // duration
    [0x5F4E, 0, 0, 1, 50], // conditions
    [0x5F37, 0, 1, 1, 140], // signature
    [0x5F38, 0, 1, 1, 1], // certificate reference
];

// The characters of its thirteen fields.
pub const FIELDS: [Chars; 13] = [
    Chars::Letters,
    Chars::Letters,
    Chars::Text,
    Chars::Digits,
    Chars::Text,
    Chars::Text,
    Chars::Text,
    Chars::Text,
    Chars::Letters,
    Chars::Binary,
    Chars::Text,
    Chars::Binary,
    Chars::Reference,
];

#[tactic(auto, unfolding(crate::specs::Rules::chars_of))]
fn chars_of(k: usize) -> Chars
    requires { k < 13 }
    ensures { result ≡ chars_of k }
{
    FIELDS[k]
}

// Whether the k-th field may be the len bytes of the record from start on. The State inside `73` is also the copy, whose value stands
// behind two bytes of tag and one of length.
#[tactic(auto, unfolding(crate::specs::Rules::content_ok))]
fn content_ok(s: &[u8], k: usize, start: usize, len: usize) -> bool
    requires { k < 13 }
    ensures { result ≡ content_ok s.now k start len }
{
    let v = part(s, start, len);
    allows_all(chars_of(k), v) && (k != 1 || same_bytes(v, part(s, 3, len)))
}

// Where the object starts whose value is the len bytes from start on: before two bytes of tag and, up to 127 bytes of value, one of length, else
// two. No field has 256 bytes.
fn object_at(start: usize, len: usize) -> usize
    ensures { result ≡ object_at start len }
{
    saturating_sub(start, if len < 128 { 3 } else { 4 })
}

fn of_fault(fault: Option<Fault>, at: usize) -> Finding
    ensures { result ≡ of_fault fault at }
{
    match fault {
        None => Ok(()),
        Some(Fault::Tag) => Err((Reason::WrongTag, at)),
        Some(Fault::Length | Fault::Depth) => Err((Reason::WrongLength, at)),
    }
}

// The first wrong content of the thirteen places, and else the reader's own fault. A place that was never noted has no bytes, so nothing
// is wrong with it.
fn tell(s: &[u8], r: &Reading) -> Finding
    ensures { result ≡ tells (content_ok s.now) r.now 13 0 }
{
    for k in 0..13 {
        let p = r.places[k];
        if !content_ok(s, k, p.at, p.len) {
            return Err((Reason::WrongContent, object_at(p.at, p.len)));
        }
    }
    of_fault(r.fault, r.at)
}

// Writes the places of the thirteen fields: of each its start and its length.
fn write(r: &Reading, places: &mut [u32])
    requires { (26 ≤ length places.old) × ((k : ℕ) → (span_at r.now k).at < 4294967296) × ((k : ℕ) → (span_at r.now k).len < 4294967296) }
    ensures { places.new ≡ sets places.old 0 (place_pairs r.now.places 13) }
{
    for i in 0..13 {
        places[2 * i] = r.places[i].at as u32;
        places[2 * i + 1] = r.places[i].len as u32;
    }
}

// Reads a record as a stamp. The list gets the places of its fields, of each the start and the length, where nothing is wrong; else it
// stays.
pub fn read_stamp(s: &[u8], places: &mut [u32]) -> Result<(), StampFault>
    ensures { (result ≡ read_stamp s.now places.old) × (places.new ≡ read_stamp_into s.now places.old) }
{
    if places.len() < 26 {
        return Err(StampFault::ShortList);
    }
    let r = read_all(s, &STAMP);
    match tell(s, &r) {
        Ok(()) => {
            write(&r, places);
            Ok(())
        }
        Err((reason, at)) => Err(StampFault::Wrong(reason, at)),
    }
}
