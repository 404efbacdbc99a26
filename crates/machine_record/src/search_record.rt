// SEARCH RECORD.
ghost use Rattle.std.specs.Prelude.{◌≡◌, length, take};
ghost use Rattle.store_records.specs.Body.{records};
ghost use Rattle.machine_reply_search.specs.Found.{kept};
ghost use Rattle.machine_record.specs.SearchRecord.{search_short, search_named, search_by, search_record, search_hits, search_status};

use machine_action::{Action, tests};
use machine_apdu::status::StatusWord;
use machine_apdu::{Frame, status};
use machine_reply_search::Hits;
use machine_session::resolve::resolve_record;
use machine_session::{Access, Named, Session};
use objects_templates::Search;

// The short id that a byte spells. ICAO's example sends the short id itself, ISO sends it in b8 to b4. The low three bits of a file's short
// id are never 000, so no byte means two files.
#[tactic(auto, unfolding(crate::specs::SearchRecord::search_short))]
fn search_short(b: usize) -> usize
    ensures { result ≡ search_short b }
{
    if b % 8 == 0 { b / 8 } else { b }
}

#[tactic(auto, unfolding(crate::specs::SearchRecord::search_named))]
fn search_named(v: &[u8]) -> Named
    ensures { result ≡ search_named v.now }
{
    if v.len() == 1 {
        Named::Short(search_short(base::byte(v, 0)))
    } else {
        Named::Id(tests::id_in(v))
    }
}

// Steps 7 to 9.
#[tactic(auto, unfolding(crate::specs::SearchRecord::search_by))]
fn search_by(
    image: &[u8],
    s: Session,
    ne: usize,
    data: &[u8],
    q: Search,
) -> Result<Action, StatusWord>
    ensures { result ≡ search_by image.now s ne «data».now (Some q) }
{
    let named = search_named(base::part(data, q.file.at, q.file.len));
    let r = resolve_record(image, s, Access::Read, named)?;
    Ok(Action::SearchRecord(r, q, ne))
}

// Steps 4 to 9.
#[tactic(auto, unfolding(crate::specs::SearchRecord::search_record, base::specs::Choice::all_of, machine_session::specs::Order::in_order))]
pub fn search_record(image: &[u8], s: Session, f: Frame, data: &[u8]) -> Result<Action, StatusWord>
    ensures { result ≡ search_record image.now s f «data».now }
{
    if f.header.p1 != 0 || f.header.p2 != 0xF8 {
        return Err(status::WRONG_PARAMETERS);
    }
    if f.lc < 1 || !tests::all_le(f) {
        return Err(status::WRONG_LENGTH);
    }
    let q = objects_templates::read_search(data).ok_or(status::WRONG_DATA)?;
    search_by(image, s, f.ne, data, q)
}

// The status word of a search, and the numbers of the records that it lists. (A struct and no Result, since the matches are told with any word.)
#[derive(Clone, Copy)]
pub struct Searched {
    pub status: StatusWord,
    pub hits: Hits,
}

// Step 10, for the first 254 records of a body: no rule allows more.
#[tactic(auto, unfolding(crate::specs::SearchRecord::search_hits, crate::specs::SearchRecord::search_reply, crate::specs::SearchRecord::search_status, machine_session::specs::Order::in_order))]
pub fn search_body(body: &[u8], data: &[u8], q: Search, ne: usize) -> Searched
    ensures { (result.status ≡ search_status (take 254 (records body.now)) «data».now q ne) × (result.hits.n ≡ length (search_hits (take 254 (records body.now)) «data».now q)) × (result.hits.numbers ≡ kept (search_hits (take 254 (records body.now)) «data».now q)) }
{
    let hits = machine_reply_search::search(
        body,
        q.offset,
        q.number,
        base::part(data, q.text.at, q.text.len),
        q.one,
    );
    let file = base::part(data, q.file.at, q.file.len);
    let status = if hits.n == 0 {
        status::NO_MATCH
    } else if machine_reply_search::reply_fits(file, hits, ne) {
        status::NORMAL
    } else {
        status::WRONG_LENGTH
    };
    Searched { status, hits }
}
