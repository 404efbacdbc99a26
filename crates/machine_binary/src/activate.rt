// ACTIVATE.
ghost use Rattle.std.specs.Prelude.{◌≡◌};
ghost use Rattle.machine_binary.specs.Activate.{activate_file};

use machine_action::{Action, tests};
use machine_apdu::status::StatusWord;
use machine_apdu::{Frame, status};
use machine_session::resolve::resolve_biometrics;
use machine_session::{Named, Session};

#[tactic(auto, unfolding(crate::specs::Activate::activate_file, base::specs::Choice::all_of, machine_session::specs::Order::in_order))]
pub fn activate_file(image: &[u8], s: Session, f: Frame) -> Result<Action, StatusWord>
    ensures { result ≡ activate_file image.now s f }
{
    if f.header.p1 != 0 || f.header.p2 != 0 {
        return Err(status::WRONG_PARAMETERS);
    }
    if !tests::neither(f) {
        return Err(status::WRONG_LENGTH);
    }
    let n = resolve_biometrics(image, s, Named::Current)?;
    Ok(Action::Activate(n))
}
