// Steps 7 to 9: which file a command means, whether it is of the type that the command takes, whether the session has the right.
ghost use Rattle.std.specs.Prelude.{◌≡◌};
ghost use Rattle.machine_session.specs.Resolve.{meant_by, meant_at, file_meant, appends, may_record, activated, may_read, may_inspect, as_record, resolve_record, as_transparent, resolve_transparent, writable, as_biometrics, resolve_biometrics, resolve_file};
ghost use Rattle.store_files.specs.declared.Transparent.TheVariants.{Biometrics};

use crate::{Access, Named, Place, Session};
use machine_apdu::status;
use machine_apdu::status::StatusWord;
use store_files::{File, Transparent};
use store_kinds::rules::Rule;
use store_kinds::{biometrics, rules};

// ---- step 7

fn meant_by(l: Option<File>) -> Result<File, StatusWord>
    ensures { result ≡ meant_by l }
{
    l.ok_or(status::FILE_NOT_FOUND)
}

fn meant_at(image: &[u8], application: usize, p: Place) -> Result<File, StatusWord>
    ensures { result ≡ meant_at image.now application p }
{
    match p {
        Place::Nowhere => Err(status::NO_CURRENT_FILE),
        Place::OnFile(i) | Place::OnRecord(i, _) => {
            meant_by(store_files::by_id(image, application, i))
        }
    }
}

#[tactic(auto, unfolding(crate::specs::Resolve::file_meant))]
fn file_meant(image: &[u8], s: Session, named: Named) -> Result<File, StatusWord>
    ensures { result ≡ file_meant image.now s named }
{
    match named {
        Named::Current => meant_at(image, s.application, s.place),
        Named::Short(x) => meant_by(store_files::by_short(image, s.application, x)),
        Named::Id(i) => meant_by(store_files::by_id(image, s.application, i)),
    }
}

// ---- step 9

fn appends(x: Access) -> bool
    ensures { result ≡ appends x }
{
    matches!(x, Access::Append)
}

#[tactic(auto, unfolding(crate::specs::Resolve::may_record, crate::specs::Resolve::is_certificates))]
fn may_record(s: Session, x: Access, r: Rule) -> bool
    ensures { result ≡ may_record s x r }
{
    machine_rights::may_records(s.rights, r.application, r.short == 0x1A, appends(x))
}

// Whether Biometrics n is Activated.
#[tactic(auto, unfolding(crate::specs::Resolve::activated))]
fn activated(image: &[u8], n: u8) -> bool
    ensures { result ≡ activated image.now n }
{
    biometrics::state(store_image::body(image, rules::biometrics_kind(n))) == 1
}

#[tactic(auto, unfolding(crate::specs::Resolve::may_read))]
fn may_read(image: &[u8], s: Session, t: Transparent) -> bool
    ensures { result ≡ may_read image.now s t }
{
    match t {
        Transparent::Info | Transparent::Dir => true,
        Transparent::Biometrics(n) => {
            machine_rights::may_biometrics(s.rights, usize::from(n), activated(image, n))
        }
    }
}

#[tactic(auto, unfolding(crate::specs::Resolve::may_inspect))]
fn may_inspect(image: &[u8], s: Session, f: File) -> bool
    ensures { result ≡ may_inspect image.now s f }
{
    match f {
        File::RecordFile(r) => may_record(s, Access::Read, r),
        File::TransparentFile(t) => may_read(image, s, t),
    }
}

// ---- a command on records

fn as_record(s: Session, x: Access, f: File) -> Result<Rule, StatusWord>
    ensures { result ≡ as_record s x f }
{
    match f {
        File::RecordFile(r) => {
            if may_record(s, x, r) {
                Ok(r)
            } else {
                Err(status::NOT_PERMITTED)
            }
        }
        File::TransparentFile(_) => Err(status::WRONG_FILE_TYPE),
    }
}

#[tactic(auto, unfolding(crate::specs::Resolve::resolve_record))]
pub fn resolve_record(image: &[u8], s: Session, x: Access, named: Named) -> Result<Rule, StatusWord>
    ensures { result ≡ resolve_record image.now s x named }
{
    as_record(s, x, file_meant(image, s, named)?)
}

// ---- a command that reads a transparent file

fn as_transparent(image: &[u8], s: Session, f: File) -> Result<Transparent, StatusWord>
    ensures { result ≡ as_transparent image.now s f }
{
    match f {
        File::RecordFile(_) => Err(status::WRONG_FILE_TYPE),
        File::TransparentFile(t) => {
            if may_read(image, s, t) {
                Ok(t)
            } else {
                Err(status::NOT_PERMITTED)
            }
        }
    }
}

#[tactic(auto, unfolding(crate::specs::Resolve::resolve_transparent))]
pub fn resolve_transparent(
    image: &[u8],
    s: Session,
    named: Named,
) -> Result<Transparent, StatusWord>
    ensures { result ≡ resolve_transparent image.now s named }
{
    as_transparent(image, s, file_meant(image, s, named)?)
}

// ---- a command that writes or activates a biometrics file

#[tactic(auto, unfolding(crate::specs::Resolve::writable, crate::specs::Order::in_order))]
fn writable_biometrics(image: &[u8], s: Session, n: u8) -> Result<u8, StatusWord>
    ensures { result ≡ writable image.now s (Biometrics n) }
{
    if !activated(image, n) && machine_rights::may_biometrics(s.rights, usize::from(n), false) {
        Ok(n)
    } else {
        Err(status::NOT_PERMITTED)
    }
}

#[tactic(auto, unfolding(crate::specs::Resolve::writable))]
fn writable(image: &[u8], s: Session, t: Transparent) -> Result<u8, StatusWord>
    ensures { result ≡ writable image.now s t }
{
    match t {
        Transparent::Info | Transparent::Dir => Err(status::NOT_PERMITTED),
        Transparent::Biometrics(n) => writable_biometrics(image, s, n),
    }
}

fn as_biometrics(image: &[u8], s: Session, f: File) -> Result<u8, StatusWord>
    ensures { result ≡ as_biometrics image.now s f }
{
    match f {
        File::RecordFile(_) => Err(status::WRONG_FILE_TYPE),
        File::TransparentFile(t) => writable(image, s, t),
    }
}

#[tactic(auto, unfolding(crate::specs::Resolve::resolve_biometrics))]
pub fn resolve_biometrics(image: &[u8], s: Session, named: Named) -> Result<u8, StatusWord>
    ensures { result ≡ resolve_biometrics image.now s named }
{
    as_biometrics(image, s, file_meant(image, s, named)?)
}

// ---- a command that takes any file

#[tactic(auto, unfolding(crate::specs::Resolve::resolve_file))]
pub fn resolve_file(image: &[u8], s: Session, named: Named) -> Result<File, StatusWord>
    ensures { result ≡ resolve_file image.now s named }
{
    let f = file_meant(image, s, named)?;
    if may_inspect(image, s, f) {
        Ok(f)
    } else {
        Err(status::NOT_PERMITTED)
    }
}
