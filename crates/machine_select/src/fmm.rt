// FILE AND MEMORY MANAGEMENT.
ghost use Rattle.std.specs.Prelude.{◌≡◌};
ghost use Rattle.machine_select.specs.Fmm.{lc_fits, is_record_file, fmm_on, fmm_named, fmm_file, fmm};

use machine_action::{Action, tests};
use machine_apdu::status::StatusWord;
use machine_apdu::{Frame, status};
use machine_session::resolve::resolve_file;
use machine_session::{Named, Session};
use store_files::File;

fn is_record_file(f: File) -> bool
    ensures { result ≡ is_record_file f }
{
    matches!(f, File::RecordFile(_))
}

// Step 10.
#[tactic(auto, unfolding(crate::specs::Fmm::fmm_on, machine_session::specs::Order::in_order))]
fn fmm_on(p2: usize, f: File) -> Result<Action, StatusWord>
    ensures { result ≡ fmm_on p2 f }
{
    if is_record_file(f) || p2 / 2 == 0 {
        Ok(Action::Report(f, p2))
    } else {
        Err(status::WRONG_PARAMETERS)
    }
}

// Steps 7 to 10.
#[tactic(auto, unfolding(crate::specs::Fmm::fmm_named))]
fn fmm_named(image: &[u8], s: Session, p2: usize, named: Named) -> Result<Action, StatusWord>
    ensures { result ≡ fmm_named image.now s p2 named }
{
    fmm_on(p2, resolve_file(image, s, named)?)
}

#[tactic(auto, unfolding(crate::specs::Fmm::fmm_file, machine_session::specs::Order::in_order))]
fn fmm_file(image: &[u8], s: Session, p2: usize, v: &[u8]) -> Result<Action, StatusWord>
    ensures { result ≡ fmm_file image.now s p2 v.now }
{
    if v.len() == 1 {
        let x = base::byte(v, 0);
        if x % 8 != 0 {
            return Err(status::WRONG_DATA);
        }
        return fmm_named(image, s, p2, Named::Short(x / 8));
    }
    fmm_named(image, s, p2, Named::Id(tests::id_in(v)))
}

// Lc stands where P1 is 01, and only there.
#[tactic(auto, unfolding(crate::specs::Fmm::lc_fits))]
fn lc_fits(p1: usize, lc: usize) -> bool
    ensures { result ≡ lc_fits p1 lc }
{
    if p1 == 0 { lc == 0 } else { 1 <= lc }
}

#[tactic(auto, unfolding(crate::specs::Fmm::fmm, machine_session::specs::Order::in_order))]
pub fn fmm(image: &[u8], s: Session, f: Frame, data: &[u8]) -> Result<Action, StatusWord>
    ensures { result ≡ fmm image.now s f «data».now }
{
    let h = f.header;
    if 1 < h.p1 || 7 < h.p2 {
        return Err(status::WRONG_PARAMETERS);
    }
    if !lc_fits(h.p1, f.lc) || !tests::all_le(f) {
        return Err(status::WRONG_LENGTH);
    }
    if h.p1 == 0 {
        return fmm_named(image, s, h.p2, Named::Current);
    }
    let p = objects_templates::read_reference(data).ok_or(status::WRONG_DATA)?;
    fmm_file(image, s, h.p2, base::part(data, p.at, p.len))
}
