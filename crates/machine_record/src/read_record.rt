// READ RECORD.
ghost use Rattle.std.specs.Prelude.{◌≡◌};
ghost use Rattle.machine_record.specs.ReadRecord.{four_or_five, all_of_record, record_named, read_from, read_record_on, read_record};

use machine_action::{Action, tests};
use machine_apdu::status::StatusWord;
use machine_apdu::{Frame, status};
use machine_session::resolve::resolve_record;
use machine_session::{Access, Session};
use store_kinds::rules::Rule;
use store_records::body;

#[tactic(auto, unfolding(crate::specs::ReadRecord::record_named))]
fn record_named(s: Session, r: Rule, p1: usize) -> Option<usize>
    ensures { result ≡ record_named s r p1 }
{
    if p1 == 0 {
        machine_session::current_record(s, r)
    } else {
        Some(p1)
    }
}

#[tactic(auto, unfolding(base::specs::Choice::all_of, machine_session::specs::Order::in_order))]
fn read_number(image: &[u8], one: bool, r: Rule, n: usize) -> Result<Action, StatusWord>
    ensures { result ≡ read_from image.now one r (Some n) }
{
    let count = body::count(store_image::body(image, r.kind));
    if n < 1 || count < n {
        return Err(status::RECORD_NOT_FOUND);
    }
    Ok(Action::ReadRecord(r, n, if one { n } else { count }))
}

// Step 10.
#[tactic(auto, unfolding(crate::specs::ReadRecord::read_record_on))]
fn read_record_on(image: &[u8], s: Session, f: Frame, r: Rule) -> Result<Action, StatusWord>
    ensures { result ≡ read_record_on image.now s f r }
{
    let n = record_named(s, r, f.header.p1).ok_or(status::RECORD_NOT_FOUND)?;
    read_number(image, f.header.p2 % 8 == 4, r, n)
}

#[tactic(auto, unfolding(crate::specs::ReadRecord::four_or_five))]
pub fn four_or_five(low: usize) -> bool
    ensures { result ≡ four_or_five low }
{
    low == 4 || low == 5
}

#[tactic(auto, unfolding(crate::specs::ReadRecord::all_of_record, base::specs::Choice::all_of))]
fn all_of_record(f: Frame) -> bool
    ensures { result ≡ all_of_record f }
{
    f.lc == 0 && f.le == 2 && f.ne == 65536
}

#[tactic(auto, unfolding(crate::specs::ReadRecord::read_record, machine_session::specs::Order::in_order))]
pub fn read_record(image: &[u8], s: Session, f: Frame) -> Result<Action, StatusWord>
    ensures { result ≡ read_record image.now s f }
{
    let p2 = f.header.p2;
    if !four_or_five(p2 % 8) {
        return Err(status::WRONG_PARAMETERS);
    }
    if !all_of_record(f) {
        return Err(status::WRONG_LENGTH);
    }
    let r = resolve_record(image, s, Access::Read, tests::or_current(p2 / 8))?;
    read_record_on(image, s, f, r)
}
