// The machine as a library: what malquindo_c exports to C under these names, with these arguments and clauses. Every function takes any
// bytes.
#![tactic(auto)]

ghost use Rattle.std.specs.Prelude.{◌≡◌, ◌≤◌, length};
ghost use Rattle.machine_session.specs.Verdict.{refusal_number, verdict_number};
ghost use Rattle.store_certificates.specs.Certificates.{located, certificate_refusal, which_body, certificate_stretch};
ghost use Rattle.objects_extensions.specs.Faults.{extension_fault_number};
ghost use Rattle.objects_extensions.specs.Read.{read_rights, read_rights_into};
ghost use Rattle.objects_stamp.specs.Faults.{reason_number};
ghost use Rattle.objects_stamp.specs.Read.{read_stamp, read_stamp_into};
ghost use Rattle.store_index.specs.Index.{build, build_into, extend, extend_into, measure};
ghost use Rattle.store_move.specs.Moving.{move_refusal_number, move_card, move_card_into};
ghost use Rattle.malquindo.specs.Face.{move_result, result_of, opening_verdict, takes_session, opened_in, open_result, open_session, session_after, called_as, called, cut_result, called_cut_as, called_cut, found_result, file_result, certificate_result, index_result, stamp_result, rights_result};

use machine_apdu::status::NORMAL;
use machine_session::{Refusal, Session};
use objects_extensions::{ExtensionFault, RightsFault};
use objects_stamp::{Reason, StampFault};
use store_certificates::{Located, Stretch};
use store_move::MoveRefusal;

// How many bytes a session has, with its chain.
const LENGTH: usize = 1054;

#[tactic(auto, unfolding(machine_session::specs::Verdict::refusal_number))]
fn refusal_number(r: Refusal) -> u64
    ensures { (result ≡ refusal_number r) × (result ≤ 4) }
{
    match r {
        Refusal::ShortBuffer => 1,
        Refusal::BadImage => 2,
        Refusal::BadRights => 3,
        Refusal::BadSession => 4,
    }
}

#[tactic(auto, unfolding(machine_session::specs::Verdict::verdict_number))]
fn verdict_number(v: Result<(), Refusal>) -> u64
    ensures { (result ≡ verdict_number v) × (result ≤ 4) }
{
    match v {
        Ok(()) => 0,
        Err(r) => refusal_number(r),
    }
}

// The three numbers of an answer in one.
#[tactic(auto, unfolding(crate::specs::Face::result_of))]
fn result(v: Result<(), Refusal>, length: usize, status: usize) -> u64
    ensures { result ≡ result_of v length status }
{
    verdict_number(v) * 4294967296 + (length % 65536) as u64 * 65536 + (status % 65536) as u64
}

// Whether an opening is accepted: its rights come first, then whether its session could be stored.
fn opening_verdict(v: Result<(), Refusal>, stored: bool) -> Result<(), Refusal>
    ensures { result ≡ opening_verdict v stored }
{
    v?;
    if stored {
        Ok(())
    } else {
        Err(Refusal::BadSession)
    }
}

// Stores the session that a command answers, on 9000 alone.
#[tactic(auto, unfolding(crate::specs::Face::session_after))]
fn keep(session: &mut [u8], status: usize, s: Session) -> bool
    ensures { session.new ≡ session_after session.old status s }
{
    if status != NORMAL {
        return false;
    }
    machine_session_bytes::put_session(session, s)
}

// How many bytes a session has.
pub fn malquindo_session_len() -> usize
    ensures { result ≡ 1054 }
{
    LENGTH
}

// Stores a session without a chain, where all of it fits; else it stores nothing. Answers whether it fitted.
fn put_opened(session: &mut [u8], s: Session) -> bool
    ensures { (result ≡ takes_session session.old) × (session.new ≡ opened_in session.old s) }
{
    if session.len() < LENGTH {
        return false;
    }
    machine_session_bytes::put_session(session, s);
    base::put(session, 25, &[0u8; 1029])
}

// Opens a session with the rights of three certificates.
#[tactic(auto, unfolding(crate::specs::Face::open_result, crate::specs::Face::open_session))]
pub fn malquindo_open(rights: &[u8], session: &mut [u8]) -> u64
    ensures { (result ≡ open_result rights.now session.old) × (session.new ≡ open_session rights.now session.old) }
{
    let a = machine::open(rights);
    let stored = put_opened(session, a.session);
    result(opening_verdict(a.verdict, stored), 0, 0)
}

// One command.
pub fn malquindo_command(
    image: &mut [u8],
    session: &mut [u8],
    command: &[u8],
    response: &mut [u8],
) -> u64
    ensures { called_as result image.new session.new response.new ≡ called image.old session.old command.now response.old }
{
    if !machine_session_bytes::is_session(session) {
        return result(machine_session::judge(image, false, response.len()), 0, 0);
    }
    let given = machine_session_bytes::session_in(session);
    let a = machine::command(image, given, &mut session[25..], command, response);
    keep(session, a.status, a.session);
    result(a.verdict, a.length, a.status)
}

// The two numbers of a cut in one.
#[tactic(auto, unfolding(crate::specs::Face::cut_result))]
fn cut_result(v: Result<(), Refusal>, stores: usize) -> u64
    ensures { result ≡ cut_result v stores }
{
    verdict_number(v) * 4294967296 + (stores % 4294967296) as u64
}

// What a cut behind so many stores leaves of the image.
pub fn malquindo_cut(image: &mut [u8], session: &[u8], command: &[u8], stores: usize) -> u64
    ensures { called_cut_as result image.new ≡ called_cut image.old session.now command.now stores }
{
    if !machine_session_bytes::is_session(session) {
        return cut_result(machine_session::judge(image, false, 2050), 0);
    }
    let a = machine_cut::cut(
        image,
        machine_session_bytes::session_in(session),
        base::part(session, 25, session.len()),
        command,
        stores,
    );
    cut_result(a.verdict, a.stores)
}

// The number of a move's refusal.
fn move_refusal_number(r: MoveRefusal) -> u64
    ensures { (result ≡ move_refusal_number r) × (result ≤ 13) }
{
    match r {
        MoveRefusal::BadImage => 2,
        MoveRefusal::BadList => 10,
        MoveRefusal::MissingKind => 11,
        MoveRefusal::SmallRoom => 12,
        MoveRefusal::ShortTarget => 13,
    }
}

// That number or the new image's length, in one.
fn move_result(m: Result<usize, MoveRefusal>) -> u64
    ensures { result ≡ move_result m }
{
    match m {
        Ok(n) => n as u64,
        Err(w) => move_refusal_number(w) * 4294967296,
    }
}

// Moves a card to other rooms, into a target of its own.
pub fn malquindo_move(old: &[u8], list: &[u8], target: &mut [u8]) -> u64
    ensures { (result ≡ move_result (move_card old.now list.now (length target.old))) × (target.new ≡ move_card_into old.now list.now target.old) }
{
    move_result(store_move::move_card(old, list, target))
}

// Where a section's body begins, and its length, in one.
fn found_result(f: Option<(usize, usize)>) -> u64
    ensures { result ≡ found_result f }
{
    match f {
        Some((start, n)) => (start % 4294967296) as u64 * 4294967296 + (n % 4294967296) as u64,
        None => 0,
    }
}

// Where the body of a file stands in a card image.
#[tactic(auto, unfolding(crate::specs::Face::file_result))]
pub fn malquindo_file(image: &[u8], kind: u16) -> u64
    ensures { result ≡ file_result image.now kind }
{
    if !store_image::well_formed(image) {
        return 0;
    }
    found_result(store_image::find(image, usize::from(kind)))
}

// The number of a certificate's refusal, 0 where there is none.
fn certificate_refusal(l: Located) -> u64
    ensures { (result ≡ certificate_refusal l) × (result ≤ 9) }
{
    match l {
        Located::Card(_) => 0,
        Located::Desk(_) => 0,
        Located::Missing => 0,
        Located::Refused => 9,
    }
}

// The number of the body that has the certificate, 0 where none has.
fn which_body(l: Located) -> u64
    ensures { (result ≡ which_body l) × (result ≤ 2) }
{
    match l {
        Located::Card(_) => 1,
        Located::Desk(_) => 2,
        Located::Missing => 0,
        Located::Refused => 0,
    }
}

// Where it stands in that body.
fn certificate_stretch(l: Located) -> Stretch
    ensures { result ≡ certificate_stretch l }
{
    match l {
        Located::Card(s) => s,
        Located::Desk(s) => s,
        Located::Missing => Stretch {
            start: 0,
            length: 0,
        },
        Located::Refused => Stretch {
            start: 0,
            length: 0,
        },
    }
}

// The four numbers of an answer in one.
#[tactic(auto, unfolding(crate::specs::Face::certificate_result))]
fn certificate_result(l: Located) -> u64
    ensures { result ≡ certificate_result l }
{
    let s = certificate_stretch(l);
    certificate_refusal(l) * 4294967296
        + which_body(l) * 268435456
        + (s.start % 262144) as u64 * 1024
        + (s.length % 1024) as u64
}

// Where the certificate stands that a stamp's reference names: in the card's body, or in the desk's.
pub fn malquindo_certificate(card: &[u8], desk: &[u8], reference: u8) -> u64
    ensures { result ≡ certificate_result (located card.now desk.now reference) }
{
    certificate_result(store_certificates::locate(card, desk, reference))
}

// An index's refusal, or how many places or bytes, in one.
#[tactic(auto, unfolding(crate::specs::Face::index_result))]
fn index_result(a: Option<usize>) -> u64
    ensures { result ≡ index_result a }
{
    match a {
        Some(n) => n as u64,
        None => 6 * 4294967296,
    }
}

// Builds an index of the records of a file's body.
pub fn malquindo_index_build(kind: u16, body: &[u8], places: &mut [u32]) -> u64
    ensures { (result ≡ index_result (build kind body.now places.old)) × (places.new ≡ build_into kind body.now places.old) }
{
    index_result(store_index::build(usize::from(kind), body, places))
}

// Extends an index of n places after an append.
pub fn malquindo_index_extend(kind: u16, body: &[u8], places: &mut [u32], n: usize) -> u64
    ensures { (result ≡ index_result (extend kind body.now places.old n)) × (places.new ≡ extend_into kind body.now places.old n) }
{
    index_result(store_index::extend(usize::from(kind), body, places, n))
}

// The length of the record of a number, by its place in an index.
pub fn malquindo_index_read(body: &[u8], places: &[u32], number: usize) -> u64
    ensures { result ≡ index_result (measure body.now places.now number) }
{
    index_result(store_index::measure(body, places, number))
}

// The number of a reason: tag, length, content.
fn reason_number(r: Reason) -> u64
    ensures { (result ≡ reason_number r) × (result ≤ 3) }
{
    match r {
        Reason::WrongTag => 1,
        Reason::WrongLength => 2,
        Reason::WrongContent => 3,
    }
}

// What a stamp's first fault is, its reason and its place, 0 where there is none, and 15 where the list is too short, in one.
fn stamp_result(a: Result<(), StampFault>) -> u64
    ensures { result ≡ stamp_result a }
{
    match a {
        Ok(()) => 0,
        Err(StampFault::Wrong(reason, at)) => {
            reason_number(reason) * 4294967296 + (at % 4294967296) as u64
        }
        Err(StampFault::ShortList) => 15 * 4294967296,
    }
}

// Reads a record as a stamp: the places of its fields, or its first fault.
pub fn malquindo_stamp_read(record: &[u8], places: &mut [u32]) -> u64
    ensures { (result ≡ stamp_result (read_stamp «record».now places.old)) × (places.new ≡ read_stamp_into «record».now places.old) }
{
    stamp_result(objects_stamp::read_stamp(record, places))
}

// The number of an extension's fault.
fn extension_fault_number(w: ExtensionFault) -> u64
    ensures { (result ≡ extension_fault_number w) × (result ≤ 8) }
{
    match w {
        ExtensionFault::Malformed => 7,
        ExtensionFault::Twice => 8,
    }
}

// That number as a refusal, 1 where the buffer is too short, and 0 where there is no fault.
fn rights_result(a: Result<(), RightsFault>) -> u64
    ensures { result ≡ rights_result a }
{
    match a {
        Ok(()) => 0,
        Err(RightsFault::Faulty(w)) => extension_fault_number(w) * 4294967296,
        Err(RightsFault::ShortBuffer) => 4294967296,
    }
}

// Reads the rights of three certificates from their extensions: the bytes that an opening takes.
pub fn malquindo_rights(first: &[u8], second: &[u8], third: &[u8], rights: &mut [u8]) -> u64
    ensures { (result ≡ rights_result (read_rights first.now second.now third.now rights.old)) × (rights.new ≡ read_rights_into first.now second.now third.now rights.old) }
{
    rights_result(objects_extensions::read_rights(first, second, third, rights))
}
