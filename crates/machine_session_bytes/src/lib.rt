// A session as bytes, for callers in other languages: 20 bytes of rights, the application, the place, the file id, the record number.
#![tactic(auto)]

ghost use Rattle.std.specs.Prelude.{◌≡◌, ◌++◌, length};
ghost use Rattle.base.specs.Bytes.{put_fits, put};
ghost use Rattle.machine_session_bytes.specs.Layout.{place_bytes, session_bytes, place_in, unused_zero, is_session, session_in};

use machine_session::{Place, Session};
use store_records::little::read16;

// How many bytes a session has.
pub const LENGTH: usize = 25;

// The place that bytes of a session say.
#[tactic(auto, unfolding(crate::specs::Layout::place_in))]
fn place_in(s: &[u8]) -> Place
    ensures { result ≡ place_in s.now }
{
    match base::byte(s, 21) {
        0 => Place::Nowhere,
        1 => Place::OnFile(read16(s, 22)),
        _ => Place::OnRecord(read16(s, 22), base::byte(s, 24)),
    }
}

// Whether what the place does not use is zero.
#[tactic(auto, unfolding(crate::specs::Layout::unused_zero, base::specs::Choice::all_of))]
fn unused_zero(s: &[u8]) -> bool
    ensures { result ≡ unused_zero s.now }
{
    match base::byte(s, 21) {
        0 => read16(s, 22) == 0 && base::byte(s, 24) == 0,
        1 => base::byte(s, 24) == 0,
        _ => true,
    }
}

// Whether bytes are a session's.
#[tactic(auto, unfolding(crate::specs::Layout::is_session, base::specs::Choice::all_of))]
pub fn is_session(s: &[u8]) -> bool
    ensures { result ≡ is_session s.now }
{
    LENGTH <= s.len() && base::byte(s, 20) <= 3 && base::byte(s, 21) <= 2 && unused_zero(s)
}

// The session that the bytes of a session are.
#[tactic(auto, unfolding(crate::specs::Layout::session_in))]
pub fn session_in(s: &[u8]) -> Session
    ensures { result ≡ session_in s.now }
{
    Session {
        rights: machine_rights::held(s),
        application: base::byte(s, 20),
        place: place_in(s),
    }
}

// The application and the place.
#[tactic(auto, unfolding(crate::specs::Layout::place_bytes))]
fn place_bytes(application: usize, p: Place) -> [u8; 5]
    ensures { result ≡ place_bytes application p }
{
    // A cast may lose no bit, and the contract takes any number: hence the remainders.
    let a = (application % 256) as u8;
    match p {
        Place::Nowhere => [a, 0, 0, 0, 0],
        Place::OnFile(i) => {
            let [low, high, ..] = i.to_le_bytes();
            [a, 1, low, high, 0]
        }
        Place::OnRecord(i, n) => {
            let [low, high, ..] = i.to_le_bytes();
            [a, 2, low, high, (n % 256) as u8]
        }
    }
}

// Stores three pieces at the start, one behind the other, where all of them fit; else it stores nothing.
fn put_pieces(out: &mut [u8], a: [u8; 3], b: [u8; 17], c: [u8; 5]) -> bool
    ensures { (result ≡ put_fits out.old 0 (a ++ (b ++ c))) × (out.new ≡ put out.old 0 (a ++ (b ++ c))) × (length (a ++ (b ++ c)) ≡ 25) }
{
    if out.len() < LENGTH {
        return false;
    }
    base::put(out, 0, &a);
    base::put(out, 3, &b);
    base::put(out, 20, &c)
}

// Stores a session at the start, where all of it fits; else it stores nothing. Answers whether it fitted.
#[tactic(auto, unfolding(crate::specs::Layout::session_bytes, base::specs::Bytes::put_fits, base::specs::Bytes::put))]
pub fn put_session(out: &mut [u8], s: Session) -> bool
    ensures { (result ≡ put_fits out.old 0 (session_bytes s)) × (out.new ≡ put out.old 0 (session_bytes s)) × (length (session_bytes s) ≡ 25) }
{
    put_pieces(
        out,
        [s.rights.flags, s.rights.travel, s.rights.visa],
        s.rights.biometrics,
        place_bytes(s.application, s.place),
    )
}
