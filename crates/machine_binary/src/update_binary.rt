// UPDATE BINARY.
ghost use Rattle.std.specs.Prelude.{◌≡◌, ◌+◌, leb};
ghost use Rattle.machine_binary.specs.UpdateBinary.{update_on, update_by, update_binary};

use machine_action::{Action, tests};
use machine_apdu::status::StatusWord;
use machine_apdu::{Frame, status};
use machine_session::Session;
use machine_session::resolve::resolve_biometrics;
use objects_templates::Writes;
use store_kinds::{biometrics, rules};

// Whether offset + n is at most room, without a sum that could wrap.
fn within(offset: usize, n: usize, room: usize) -> bool
    ensures { result ≡ leb (offset + n) room }
{
    offset <= room && n <= room - offset
}

// Step 10.
#[tactic(auto, unfolding(crate::specs::UpdateBinary::update_on, machine_session::specs::Order::in_order))]
fn update_on(image: &[u8], w: Writes, n: u8) -> Result<Action, StatusWord>
    ensures { result ≡ update_on image.now w n }
{
    let body = store_image::body(image, rules::biometrics_kind(n));
    if biometrics::written(body) < w.offset {
        return Err(status::WRONG_DATA);
    }
    if !within(w.offset, w.bytes.len, biometrics::room(body)) {
        return Err(status::NO_ROOM);
    }
    Ok(Action::UpdateBinary(n, w))
}

// Steps 7 to 10.
#[tactic(auto, unfolding(crate::specs::UpdateBinary::update_by))]
fn update_by(image: &[u8], s: Session, i: usize, w: Writes) -> Result<Action, StatusWord>
    ensures { result ≡ update_by image.now s i (Some w) }
{
    let n = resolve_biometrics(image, s, tests::id_or_current(i))?;
    update_on(image, w, n)
}

#[tactic(auto, unfolding(crate::specs::UpdateBinary::update_binary, machine_session::specs::Order::in_order))]
pub fn update_binary(image: &[u8], s: Session, f: Frame, data: &[u8]) -> Result<Action, StatusWord>
    ensures { result ≡ update_binary image.now s f «data».now }
{
    if !tests::lc_only(f) {
        return Err(status::WRONG_LENGTH);
    }
    let w = objects_templates::read_update(data).ok_or(status::WRONG_DATA)?;
    update_by(image, s, tests::be16(f.header.p1, f.header.p2), w)
}
