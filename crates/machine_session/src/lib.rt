// A session: its rights, the application selected, the current place. Whether a call is accepted. Which file a command means, and
// whether the session may do with it what the command asks, is in `resolve`.
#![tactic(auto)]

pub mod resolve;

ghost use Rattle.std.specs.Prelude.{◌≡◌};
ghost use Rattle.machine_session.specs.Session.{opened, is_current, set_file, current_record, application_fits, is_known, has_record, record_fits, place_fits, session_fits};
ghost use Rattle.machine_session.specs.Verdict.{verdict, open_verdict};

use machine_rights::Rights;
use store_files::{File, Transparent};
use store_kinds::rules::Rule;
use store_records::body;

// The current place: none, a file, or a file and record.
#[derive(Clone, Copy)]
pub enum Place {
    Nowhere,
    OnFile(usize),
    OnRecord(usize, usize),
}

#[derive(Clone, Copy)]
pub struct Session {
    pub rights: Rights,
    pub application: usize,
    pub place: Place,
}

// Why a call gets no status word.
#[derive(Clone, Copy)]
pub enum Refusal {
    ShortBuffer,
    BadImage,
    BadRights,
    BadSession,
}

// How a command names a file: the current one, by its short id, by its id.
#[derive(Clone, Copy)]
pub enum Named {
    Current,
    Short(usize),
    Id(usize),
}

// What a command does with records.
#[derive(Clone, Copy)]
pub enum Access {
    Read,
    Append,
}

// The session that certificates open.
#[tactic(auto, unfolding(crate::specs::Session::opened))]
pub fn open(certificates: &[u8]) -> Session
    ensures { result ≡ opened certificates.now }
{
    Session {
        rights: machine_rights::effective(certificates),
        application: 0,
        place: Place::Nowhere,
    }
}

// Whether an opening is accepted.
#[tactic(auto, unfolding(crate::specs::Verdict::open_verdict))]
pub fn open_verdict(certificates: &[u8]) -> Result<(), Refusal>
    ensures { result ≡ open_verdict certificates.now }
{
    if certificates.len() == 60 {
        Ok(())
    } else {
        Err(Refusal::BadRights)
    }
}

#[tactic(auto, unfolding(crate::specs::Session::is_current))]
fn is_current(p: Place, id: usize) -> bool
    ensures { result ≡ is_current p id }
{
    match p {
        Place::Nowhere => false,
        Place::OnFile(i) | Place::OnRecord(i, _) => i == id,
    }
}

// The session with a file as the current one: another drops the current record, the same keeps it.
#[tactic(auto, unfolding(crate::specs::Session::set_file))]
pub fn set_file(s: Session, f: File) -> Session
    ensures { result ≡ set_file s f }
{
    let id = store_files::id_of(f);
    if is_current(s.place, id) {
        return s;
    }
    Session {
        place: Place::OnFile(id),
        ..s
    }
}

// The current record of a record file.
#[tactic(auto, unfolding(crate::specs::Session::current_record))]
pub fn current_record(s: Session, r: Rule) -> Option<usize>
    ensures { result ≡ current_record s r }
{
    match s.place {
        Place::OnRecord(i, n) if i == r.id => Some(n),
        _ => None,
    }
}

// ---- whether a session fits an image

#[tactic(auto, unfolding(crate::specs::Session::application_fits))]
fn application_fits(image: &[u8], application: usize) -> bool
    ensures { result ≡ application_fits image.now application }
{
    application == 0 || store_image::present(image, application)
}

fn is_known(l: Option<File>) -> bool
    ensures { result ≡ is_known l }
{
    l.is_some()
}

#[tactic(auto, unfolding(base::specs::Choice::all_of))]
fn has_record(image: &[u8], f: File, n: usize) -> bool
    ensures { result ≡ has_record image.now f n }
{
    match f {
        File::RecordFile(r) => 1 <= n && n <= body::count(store_image::body(image, r.kind)),
        File::TransparentFile(_) => false,
    }
}

fn record_fits(image: &[u8], l: Option<File>, n: usize) -> bool
    ensures { result ≡ record_fits image.now l n }
{
    l.is_some_and(|f| has_record(image, f, n))
}

#[tactic(auto, unfolding(crate::specs::Session::place_fits))]
fn place_fits(image: &[u8], application: usize, p: Place) -> bool
    ensures { result ≡ place_fits image.now application p }
{
    match p {
        Place::Nowhere => true,
        Place::OnFile(i) => is_known(store_files::by_id(image, application, i)),
        Place::OnRecord(i, n) => record_fits(image, store_files::by_id(image, application, i), n),
    }
}

// Whether a session fits an image.
#[tactic(auto, unfolding(crate::specs::Session::session_fits, base::specs::Choice::all_of))]
pub fn session_fits(image: &[u8], s: Session) -> bool
    ensures { result ≡ session_fits image.now s }
{
    application_fits(image, s.application)
        && place_fits(image, s.application, s.place)
        && machine_rights::is_cleared(s.rights)
}

// Whether a command with a response buffer of n bytes is accepted, by whether its session fits the image.
#[tactic(auto, unfolding(crate::specs::Verdict::verdict))]
pub fn judge(image: &[u8], fits: bool, n: usize) -> Result<(), Refusal>
    ensures { result ≡ verdict image.now fits n }
{
    if n < 2050 {
        Err(Refusal::ShortBuffer)
    } else if !store_image::well_formed(image) {
        Err(Refusal::BadImage)
    } else if !fits {
        Err(Refusal::BadSession)
    } else {
        Ok(())
    }
}
