// SELECT.
ghost use Rattle.std.specs.Prelude.{◌≡◌};
ghost use Rattle.store_files.specs.Master.{aid_of};
ghost use Rattle.machine_select.specs.Select.{select_aid, select_master, select_file, select_by, one_of_three, length_fits, select};

use machine_action::{Action, tests};
use machine_apdu::status::StatusWord;
use machine_apdu::{Frame, status};
use machine_session::resolve::resolve_file;
use machine_session::{Named, Session};

#[tactic(auto, unfolding(machine_session::specs::Order::in_order))]
fn select_application(image: &[u8], s: Session, a: usize) -> Result<Action, StatusWord>
    ensures { result ≡ select_aid image.now s (Some a) }
{
    if !store_image::present(image, a) {
        return Err(status::FILE_NOT_FOUND);
    }
    if !machine_rights::flag(s.rights, a) {
        return Err(status::NOT_PERMITTED);
    }
    Ok(Action::SelectApplication(a))
}

fn select_aid(image: &[u8], s: Session, data: &[u8]) -> Result<Action, StatusWord>
    ensures { result ≡ select_aid image.now s (aid_of «data».now) }
{
    let a = store_files::aid_of(data).ok_or(status::FILE_NOT_FOUND)?;
    select_application(image, s, a)
}

#[tactic(auto, unfolding(crate::specs::Select::select_master))]
fn select_master(i: usize) -> Result<Action, StatusWord>
    ensures { result ≡ select_master i }
{
    if i == 0x3F00 {
        Ok(Action::SelectApplication(0))
    } else {
        Err(status::FILE_NOT_FOUND)
    }
}

#[tactic(auto, unfolding(crate::specs::Select::select_file))]
fn select_file(image: &[u8], s: Session, i: usize) -> Result<Action, StatusWord>
    ensures { result ≡ select_file image.now s i }
{
    Ok(Action::SelectFile(resolve_file(image, s, Named::Id(i))?))
}

// Steps 7 to 9, by P1.
#[tactic(auto, unfolding(crate::specs::Select::select_by))]
fn select_by(image: &[u8], s: Session, p1: usize, data: &[u8]) -> Result<Action, StatusWord>
    ensures { result ≡ select_by image.now s p1 «data».now }
{
    match p1 {
        0x04 => select_aid(image, s, data),
        0x02 => select_file(image, s, tests::id_in(data)),
        _ => select_master(tests::id_in(data)),
    }
}

#[tactic(auto, unfolding(crate::specs::Select::one_of_three))]
pub fn one_of_three(p1: usize) -> bool
    ensures { result ≡ one_of_three p1 }
{
    matches!(p1, 0x04 | 0x02 | 0x00)
}

#[tactic(auto, unfolding(crate::specs::Select::length_fits))]
fn length_fits(p1: usize, lc: usize) -> bool
    ensures { result ≡ length_fits p1 lc }
{
    p1 == 0x04 || lc == 2
}

#[tactic(auto, unfolding(crate::specs::Select::select, machine_session::specs::Order::in_order))]
pub fn select(image: &[u8], s: Session, f: Frame, data: &[u8]) -> Result<Action, StatusWord>
    ensures { result ≡ select image.now s f «data».now }
{
    let h = f.header;
    if h.p2 != 0x0C || !one_of_three(h.p1) {
        return Err(status::WRONG_PARAMETERS);
    }
    if !tests::lc_only(f) || !length_fits(h.p1, f.lc) {
        return Err(status::WRONG_LENGTH);
    }
    select_by(image, s, h.p1, data)
}
