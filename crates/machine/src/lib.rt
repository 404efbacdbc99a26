// The command machine: command bytes, rights and card image in; response, status word and image out.
#![tactic(auto)]

ghost use Rattle.std.specs.Prelude.{◌≡◌, true, [], ◌∷◌, ◌+◌, ◌≤◌, length};
ghost use Rattle.base.specs.Choice.{all_of};
ghost use Rattle.base.specs.Bytes.{put};
ghost use Rattle.machine_apdu.specs.Status.{normal};
ghost use Rattle.machine_apdu.specs.Shape.{shape_of};
ghost use Rattle.machine_session.specs.Session.{session_fits};
ghost use Rattle.machine_chain.specs.Layout.{no_chain_bytes, is_chain, chain_in, join_into};
ghost use Rattle.machine_link.specs.Link.{lent_fits};
ghost use Rattle.store_image.specs.Image.{well_formed};
ghost use Rattle.store_files.specs.Files.{file_bytes};
ghost use Rattle.machine_action.specs.declared.Action.TheVariants.{SearchRecord, ReadRecord, Report, ReadBinary, ReadBinaryOdd};
ghost use Rattle.machine_dispatch.specs.Loops.{Allowed};
ghost use Rattle.machine_answer.specs.Outcome.{outcome, word, answered, refused as refused_as};
ghost use Rattle.machine.specs.Effects.{searched, done};
ghost use Rattle.machine.specs.Step.{opening};
ghost use Rattle.machine.specs.Lent.{judged_course, judged_shape, judged, step_lent, chain_into};
ghost use Rattle.machine.specs.Loops.{Ready, obeyed};

use machine_action::Action;
use machine_answer::Answer;
use machine_apdu::status::StatusWord;
use machine_apdu::{Frame, Header, status};
use machine_link::Course;
use machine_record::search_record::search_body;
use machine_session::{Place, Refusal, Session};
use objects_templates::Search;
use store_files::{File, Transparent};
use store_kinds::rules::Rule;

// What a command comes to before its data are looked at: a refusal; a status word; a link that joins the chain; or a command that is obeyed, with
// what the chain has before its data. (No Result, since a refusal has no status word, and a status word is no refusal.)
#[derive(Clone, Copy)]
pub enum Judgement {
    Denied(Refusal),
    Stopped(StatusWord),
    Linked(Frame),
    Obeyed(Frame),
}

// Opens a session with the rights of three certificates.
#[tactic(auto, unfolding(crate::specs::Step::opening))]
pub fn open(certificates: &[u8]) -> Answer
    ensures { result ≡ opening certificates.now }
{
    Answer {
        verdict: machine_session::open_verdict(certificates),
        length: 0,
        status: 0,
        session: machine_session::open(certificates),
    }
}

// A call that is refused: nothing is touched.
fn refused(refusal: Refusal, s: Session) -> Answer
    ensures { result ≡ refused_as refusal s }
{
    Answer {
        verdict: Err(refusal),
        length: 0,
        status: 0,
        session: s,
    }
}

// SEARCH RECORD.
fn search(
    image: &[u8],
    s: Session,
    r: Rule,
    q: Search,
    ne: usize,
    data: &[u8],
    response: &mut [u8],
) -> Answer
    requires { (well_formed image.now ≡ true) × (2050 ≤ length response.old) × Allowed image.now «data».now (Ok (SearchRecord r q ne)) }
    ensures { outcome result image.now response.new ≡ searched image.now s «data».now response.old r q ne }
{
    let found = search_body(store_image::body(image, r.kind), data, q, ne);
    if found.status != status::NORMAL {
        return machine_answer::status_only(s, found.status, response);
    }
    let file = base::part(data, q.file.at, q.file.len);
    let n = machine_reply_search::put_found(response, file, found.hits);
    let first = machine_reply_search::first(found.hits);
    machine_answer::status_behind(
        machine_answer::placed(s, Place::OnRecord(r.id, first)),
        status::NORMAL,
        n as u16,
        response,
    )
}

// READ RECORD.
fn read_record(image: &[u8], s: Session, r: Rule, a: usize, b: usize, response: &mut [u8]) -> Answer
    requires { (well_formed image.now ≡ true) × (2050 ≤ length response.old) × Allowed image.now [] (Ok (ReadRecord r a b)) }
    ensures { outcome result image.now response.new ≡ done (Ok (ReadRecord r a b)) image.now s [] response.old }
{
    let n = machine_reply_record::put_records(store_image::body(image, r.kind), a, b, response);
    machine_answer::status_behind(
        machine_session::set_file(s, File::RecordFile(r)),
        status::NORMAL,
        n as u16,
        response,
    )
}

// FMM.
fn report(image: &[u8], s: Session, f: File, p2: usize, response: &mut [u8]) -> Answer
    requires { 2050 ≤ length response.old }
    ensures { outcome result image.now response.new ≡ done (Ok (Report f p2)) image.now s [] response.old }
{
    let t = machine_reply_fmm::total(image, f);
    let r = machine_reply_fmm::remaining(image, f);
    let e = machine_reply_fmm::existing(image, f);
    let n = machine_reply_fmm::put_report(response, p2, t, r, e);
    machine_answer::status_behind(
        machine_session::set_file(s, f),
        status::NORMAL,
        n as u16,
        response,
    )
}

// READ BINARY.
fn read_binary(
    image: &[u8],
    s: Session,
    t: Transparent,
    o: usize,
    n: usize,
    response: &mut [u8],
) -> Answer
    requires { (2050 ≤ length response.old) × (n ≤ 2048) × (o + n ≤ length (file_bytes image.now t)) }
    ensures { outcome result image.now response.new ≡ done (Ok (ReadBinary t o n)) image.now s [] response.old }
{
    store_files::put_bytes(image, t, o, n, response, 0);
    machine_answer::status_behind(
        machine_session::set_file(s, File::TransparentFile(t)),
        status::NORMAL,
        n as u16,
        response,
    )
}

// READ BINARY with the odd INS: the object's head, and behind it the file's bytes.
fn read_binary_odd(
    image: &[u8],
    s: Session,
    t: Transparent,
    o: usize,
    n: usize,
    response: &mut [u8],
) -> Answer
    requires { (2050 ≤ length response.old) × Allowed image.now [] (Ok (ReadBinaryOdd t o n)) }
    ensures { outcome result image.now response.new ≡ done (Ok (ReadBinaryOdd t o n)) image.now s [] response.old }
{
    let at = objects_writer::put_head(response, 0, 0x53, n);
    store_files::put_bytes(image, t, o, n, response, at);
    machine_answer::status_behind(
        machine_session::set_file(s, File::TransparentFile(t)),
        status::NORMAL,
        (at + n) as u16,
        response,
    )
}

// Does what a command comes to.
#[tactic(auto, unfolding(crate::specs::Effects::done, machine_answer::specs::Outcome::says))]
fn apply(image: &mut [u8], s: Session, d: Action, data: &[u8], response: &mut [u8]) -> Answer
    requires { (well_formed image.old ≡ true) × (2050 ≤ length response.old) × Allowed image.old «data».now (Ok d) }
    ensures { outcome result image.new response.new ≡ done (Ok d) image.old s «data».now response.old }
{
    match d {
        Action::SelectApplication(a) => machine_answer::status_only(
            machine_answer::entered(s, a),
            status::NORMAL,
            response,
        ),
        Action::SelectFile(f) => machine_answer::status_only(
            machine_answer::placed(s, Place::OnFile(store_files::id_of(f))),
            status::NORMAL,
            response,
        ),
        Action::ReadBinary(t, o, n) => read_binary(image, s, t, o, n, response),
        Action::UpdateBinary(n, w) => machine_answer::update(image, s, n, w, data, response),
        Action::Activate(n) => machine_answer::activate(image, s, n, response),
        Action::AppendRecord(r) => machine_answer::append(image, s, r, data, response),
        Action::ReadRecord(r, a, b) => read_record(image, s, r, a, b, response),
        Action::SearchRecord(r, q, ne) => search(image, s, r, q, ne, data, response),
        Action::Report(f, p2) => report(image, s, f, p2, response),
        Action::ReadBinaryOdd(t, o, n) => read_binary_odd(image, s, t, o, n, response),
    }
}

// Answers the status word that stops a command, or does what it comes to.
#[tactic(auto, unfolding(crate::specs::Effects::done, machine_answer::specs::Outcome::says))]
fn answer(
    image: &mut [u8],
    s: Session,
    d: Result<Action, StatusWord>,
    data: &[u8],
    response: &mut [u8],
) -> Answer
    requires { (well_formed image.old ≡ true) × (2050 ≤ length response.old) × Allowed image.old «data».now d }
    ensures { outcome result image.new response.new ≡ done d image.old s «data».now response.old }
{
    match d {
        Ok(action) => apply(image, s, action, data, response),
        Err(w) => machine_answer::status_only(s, w, response),
    }
}

// Whether a session fits an image, and its chain does.
#[tactic(auto, unfolding(base::specs::Choice::all_of))]
fn fits(image: &[u8], s: Session, chain: &[u8]) -> bool
    ensures { result ≡ all_of (session_fits image.now s ∷ lent_fits chain.now ∷ []) }
{
    machine_session::session_fits(image, s) && machine_link::fits(chain)
}

// The judgement of a command with a frame, by what the chain makes of it.
#[tactic(auto, unfolding(crate::specs::Lent::judged_course))]
fn judged_course(course: Result<Course, StatusWord>, f: Frame) -> Judgement
    ensures { result ≡ judged_course course f }
{
    match course {
        Err(w) => Judgement::Stopped(w),
        Ok(Course::Extends) => Judgement::Linked(f),
        Ok(Course::Goes) => Judgement::Obeyed(f),
    }
}

// Steps 1 to 3 and what the chain asks of an accepted command.
fn shaped(chain: &[u8], command: &[u8]) -> Judgement
    ensures { result ≡ judged_shape (chain_in chain.now) (shape_of command.now) }
{
    match machine_apdu::shape(command) {
        None => Judgement::Stopped(status::WRONG_LENGTH),
        Some(f) => judged_course(machine_link::turn(chain, f), f),
    }
}

// Judges a command whose response buffer has n bytes. It touches nothing.
#[tactic(auto, unfolding(crate::specs::Lent::judged))]
pub fn judged(image: &[u8], s: Session, chain: &[u8], command: &[u8], n: usize) -> Judgement
    ensures { result ≡ judged image.now s chain.now command.now n }
{
    match machine_session::judge(image, fits(image, s, chain), n) {
        Ok(()) => shaped(chain, command),
        Err(r) => Judgement::Denied(r),
    }
}

// A status word that ends a chain, where there is one, and changes nothing else.
fn stop(s: Session, w: StatusWord, chain: &mut [u8], response: &mut [u8]) -> Answer
    requires { is_chain chain.old ≡ true }
    ensures { (result ≡ answered 0 w s) × (response.new ≡ put response.old 0 (word w)) × (chain.new ≡ put chain.old 0 no_chain_bytes) }
{
    machine_chain::end(chain);
    machine_answer::status_only(s, w, response)
}

// A link joins the chain, and changes nothing else.
fn link(s: Session, h: Header, own: &[u8], chain: &mut [u8], response: &mut [u8]) -> Answer
    ensures { (result ≡ answered 0 normal s) × (response.new ≡ put response.old 0 (word normal)) × (chain.new ≡ join_into chain.old h own.now) }
{
    machine_chain::extend(chain, h, own);
    machine_answer::status_only(s, status::NORMAL, response)
}

// The whole command is obeyed: its own data join the chain, which lends all of them, and then ends.
fn obey(
    image: &mut [u8],
    s: Session,
    f: Frame,
    own: &[u8],
    chain: &mut [u8],
    response: &mut [u8],
) -> Answer
    requires { Ready image.old chain.old f own.now (length response.old) }
    ensures { (outcome result image.new response.new ≡ obeyed image.old s (chain_in chain.old) f own.now response.old) × (chain.new ≡ put chain.old 0 no_chain_bytes) }
{
    machine_chain::join(chain, f.header, own);
    let data = machine_chain::joined(chain, own);
    let whole = Frame {
        lc: data.len(),
        ..f
    };
    let d = machine_dispatch::by_class(image, s, whole, data);
    let a = answer(image, s, d, data, response);
    machine_chain::end(chain);
    a
}

// One command on a card image in a session, whose chain is lent. The response goes to the buffer's start; the session comes back in the answer.
pub fn command(
    image: &mut [u8],
    s: Session,
    chain: &mut [u8],
    command: &[u8],
    response: &mut [u8],
) -> Answer
    ensures { (outcome result image.new response.new ≡ step_lent image.old s chain.old command.now response.old) × (chain.new ≡ chain_into image.old s chain.old command.now (length response.old)) }
{
    match judged(image, s, chain, command, response.len()) {
        Judgement::Denied(r) => refused(r, s),
        Judgement::Stopped(w) => stop(s, w, chain, response),
        Judgement::Linked(f) => {
            let own = base::part(command, f.from, f.lc);
            link(s, f.header, own, chain, response)
        }
        Judgement::Obeyed(f) => {
            let own = base::part(command, f.from, f.lc);
            obey(image, s, f, own, chain, response)
        }
    }
}
