// What a call answers, and the effects that write the card: the image where the effect writes it, and a status word alone.
#![tactic(auto)]

ghost use Rattle.std.specs.Prelude.{◌≡◌, [], ◌+◌};
ghost use Rattle.base.specs.Bytes.{part, put};
ghost use Rattle.store_records.specs.Body.{count};
ghost use Rattle.store_image.specs.Image.{body, append_to, update_in, activate_in};
ghost use Rattle.store_kinds.specs.Rules.{biometrics_kind};
ghost use Rattle.store_files.specs.declared.File.TheVariants.{TransparentFile};
ghost use Rattle.store_files.specs.declared.Transparent.TheVariants.{Biometrics};
ghost use Rattle.machine_apdu.specs.Status.{normal};
ghost use Rattle.machine_session.specs.Session.{placed as placed_at, entered as entered_at, set_file};
ghost use Rattle.machine_session.specs.declared.Place.TheVariants.{OnRecord};
ghost use Rattle.machine_answer.specs.Outcome.{outcome, word, answered, says};

use machine_apdu::status;
use machine_apdu::status::StatusWord;
use machine_session::{Place, Refusal, Session};
use objects_templates::Writes;
use store_cut::Writing;
use store_files::{File, Transparent};
use store_kinds::rules;
use store_kinds::rules::Rule;
use store_records::body;

// What a call answers. (A struct and no Result: what it says of the session holds for a refusal, too, and the promises speak of that.)
#[derive(Clone, Copy)]
pub struct Answer {
    pub verdict: Result<(), Refusal>,
    pub length: usize,
    pub status: StatusWord,
    pub session: Session,
}

// Answers a status word behind n bytes of data: stores the word, where there is room for it.
#[tactic(auto, unfolding(crate::specs::Outcome::word))]
pub fn status_behind(s: Session, w: StatusWord, n: u16, response: &mut [u8]) -> Answer
    ensures { (result ≡ answered n w s) × (response.new ≡ put response.old n (word w)) }
{
    // (u16::to_be_bytes would want w % 65536 as a u16 first, and is no plainer.)
    let sw = [(w / 256 % 256) as u8, (w % 256) as u8];
    base::put(response, usize::from(n), &sw);
    Answer {
        verdict: Ok(()),
        length: usize::from(n) + 2,
        status: w,
        session: s,
    }
}

// Answers a status word alone.
pub fn status_only(s: Session, w: StatusWord, response: &mut [u8]) -> Answer
    ensures { (result ≡ answered 0 w s) × (response.new ≡ put response.old 0 (word w)) }
{
    status_behind(s, w, 0, response)
}

// The session at another place.
pub fn placed(s: Session, place: Place) -> Session
    ensures { result ≡ placed_at s place }
{
    Session { place, ..s }
}

// The session in another application, with no place in it.
pub fn entered(s: Session, application: usize) -> Session
    ensures { result ≡ entered_at s application }
{
    Session {
        application,
        place: Place::Nowhere,
        ..s
    }
}

// UPDATE BINARY.
#[tactic(auto, unfolding(crate::specs::Outcome::says))]
pub fn update(
    image: &mut [u8],
    s: Session,
    n: u8,
    w: Writes,
    data: &[u8],
    response: &mut [u8],
) -> Answer
    ensures { outcome result image.new response.new ≡ says normal [] (set_file s (TransparentFile (Biometrics n))) (update_in image.old (biometrics_kind n) w.offset (part «data».now w.bytes.at w.bytes.len)) response.old }
{
    store_image::update(
        image,
        rules::biometrics_kind(n),
        w.offset,
        base::part(data, w.bytes.at, w.bytes.len),
    );
    status_only(
        machine_session::set_file(s, File::TransparentFile(Transparent::Biometrics(n))),
        status::NORMAL,
        response,
    )
}

// ACTIVATE: its one store. It has no data.
#[tactic(auto, using(store_image::proofs::Laws::activate_all), unfolding(crate::specs::Outcome::says))]
pub fn activate(image: &mut [u8], s: Session, n: u8, response: &mut [u8]) -> Answer
    ensures { outcome result image.new response.new ≡ says normal [] s (activate_in image.old (biometrics_kind n)) response.old }
{
    store_image::make_stores(image, rules::biometrics_kind(n), Writing::State, b"", 1);
    status_only(s, status::NORMAL, response)
}

// APPEND RECORD: all of its stores, four more than the record has bytes.
#[tactic(auto, using(store_image::proofs::Laws::append_all), unfolding(crate::specs::Outcome::says))]
pub fn append(image: &mut [u8], s: Session, r: Rule, data: &[u8], response: &mut [u8]) -> Answer
    ensures { outcome result image.new response.new ≡ says normal [] (placed_at s (OnRecord r.id (count (body image.old r.kind) + 1))) (append_to image.old r.kind «data».now) response.old }
{
    let n = body::count(store_image::body(image, r.kind));
    store_image::make_stores(image, r.kind, Writing::Record, data, data.len() + 4);
    status_only(
        placed(s, Place::OnRecord(r.id, n + 1)),
        status::NORMAL,
        response,
    )
}
