// Biometrics bodies: the state, the written length and the room of one file.
ghost use Rattle.std.specs.Prelude.{◌≡◌, true, ◌+◌, ◌<◌, length};
ghost use Rattle.store_kinds.specs.Biometrics.{state, written, room, written_bytes, bio_ok, updatable, updated, update};

use store_records::little::read32;

// The most bytes that a file may have room for.
pub const LARGEST_ROOM: usize = 131072;

// 0 Deactivated, 1 Activated.
#[tactic(auto, unfolding(crate::specs::Biometrics::state))]
pub fn state(body: &[u8]) -> usize
    ensures { result ≡ state body.now }
{
    base::byte(body, 0)
}

// How many bytes are written.
#[tactic(auto, unfolding(crate::specs::Biometrics::written))]
pub fn written(body: &[u8]) -> usize
    ensures { (result ≡ written body.now) × (result < 4294967296) }
{
    read32(body, 1)
}

// How many bytes there is room for.
#[tactic(auto, unfolding(crate::specs::Biometrics::room))]
pub fn room(body: &[u8]) -> usize
    ensures { result ≡ room body.now }
{
    body.len().saturating_sub(5)
}

// The bytes written, as the part of the body that they are.
#[tactic(auto, unfolding(crate::specs::Biometrics::written_bytes))]
pub fn written_bytes(body: &[u8]) -> &[u8]
    ensures { result.now ≡ written_bytes body.now }
{
    base::part(body, 5, written(body))
}

// Whether a body is one of biometrics.
#[tactic(auto, unfolding(crate::specs::Biometrics::bio_ok, base::specs::Choice::all_of))]
pub fn well_formed(body: &[u8]) -> bool
    ensures { result ≡ bio_ok body.now }
{
    5 <= body.len() && state(body) <= 1 && room(body) <= LARGEST_ROOM && written(body) <= room(body)
}

// Writes data from `offset` of the room on, and then the written length, which was w.
fn write(body: &mut [u8], offset: usize, w: usize, data: &[u8])
    requires { (updatable body.old offset (length «data».now) ≡ true) × (w ≡ written body.old) }
    ensures { body.new ≡ updated body.old offset «data».now }
{
    let n = w.max(offset + data.len());
    base::put(body, 5 + offset, data);
    base::put(body, 1, &(n as u32).to_le_bytes());
}

// Writes data from `offset` of the room on, and then the written length, where the body can take it; else it changes nothing.
// Answers whether it could.
#[tactic(auto, unfolding(crate::specs::Biometrics::update, crate::specs::Biometrics::updatable, base::specs::Choice::all_of))]
pub fn update(body: &mut [u8], offset: usize, data: &[u8]) -> bool
    ensures { (result ≡ updatable body.old offset (length «data».now)) × (body.new ≡ update body.old offset «data».now) }
{
    if !well_formed(body) {
        return false;
    }
    let w = written(body);
    if w < offset || room(body) - offset < data.len() {
        return false;
    }
    write(body, offset, w, data);
    true
}
