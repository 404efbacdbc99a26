// APPEND RECORD.
ghost use Rattle.std.specs.Prelude.{◌≡◌};
ghost use Rattle.machine_record.specs.AppendRecord.{append_on, append_record};

use machine_action::{Action, tests};
use machine_apdu::status::StatusWord;
use machine_apdu::{Frame, status};
use machine_session::resolve::resolve_record;
use machine_session::{Access, Session};
use store_kinds::rules::Rule;
use store_records::body;

// Step 10.
#[tactic(auto, unfolding(crate::specs::AppendRecord::append_on, machine_session::specs::Order::in_order))]
fn append_on(image: &[u8], n: usize, r: Rule) -> Result<Action, StatusWord>
    ensures { result ≡ append_on image.now n r }
{
    if r.longest < n {
        return Err(status::WRONG_LENGTH);
    }
    let b = store_image::body(image, r.kind);
    if r.most <= body::count(b) || !body::append_fits(b, n) {
        return Err(status::NO_ROOM);
    }
    Ok(Action::AppendRecord(r))
}

#[tactic(auto, unfolding(crate::specs::AppendRecord::append_record, base::specs::Choice::all_of, machine_session::specs::Order::in_order))]
pub fn append_record(image: &[u8], s: Session, f: Frame, data: &[u8]) -> Result<Action, StatusWord>
    ensures { result ≡ append_record image.now s f «data».now }
{
    let h = f.header;
    if h.p1 != 0 || h.p2 % 8 != 0 {
        return Err(status::WRONG_PARAMETERS);
    }
    if !tests::lc_only(f) {
        return Err(status::WRONG_LENGTH);
    }
    let r = resolve_record(image, s, Access::Append, tests::or_current(h.p2 / 8))?;
    append_on(image, data.len(), r)
}
