// The single byte stores by which APPEND RECORD and ACTIVATE write a file's body, in order. `make_stores` makes the first k of them: a
// command has all of them made, and a cut fewer. Nothing else writes a record or a state of a card in use; a move writes a new image.
#![tactic(auto)]

ghost use Rattle.std.specs.Prelude.{◌≡◌, true, [], ◌∷◌, ◌+◌, ◌-◌, ◌≤◌, ◌<◌, length, take};
ghost use Rattle.store_records.specs.Body.{count, used, appendable};
ghost use Rattle.store_cut.specs.declared.Writing.TheVariants.{Record, State};
ghost use Rattle.store_cut.specs.Stores.{at, run, record_stores, stores, made, make_stores};

use base::natural::saturating_sub;
use store_kinds::biometrics;
use store_records::body;

// What is written: a record behind the last one; or the state of a biometrics file, which becomes Activated.
#[derive(Clone, Copy)]
pub enum Writing {
    Record,
    State,
}

// Makes one store, where k is at least 1. Answers what is left of k behind it.
fn make_one(body: &mut [u8], place: usize, byte: u8, k: usize) -> usize
    requires { place < length body.old }
    ensures { (result ≡ k - 1) × (body.new ≡ made (take k (at place byte ∷ [])) body.old) }
{
    if k == 0 {
        return 0;
    }
    body[place] = byte;
    k - 1
}

// Makes the first k stores of a run: bytes one behind the other, from `at` on. Answers what is left of k behind the run.
fn make_run(body: &mut [u8], at: usize, bytes: &[u8], k: usize) -> usize
    requires { at + length bytes.now ≤ length body.old }
    ensures { (result ≡ k - length bytes.now) × (body.new ≡ made (take k (run at bytes.now)) body.old) }
{
    base::put(body, at, base::part(bytes, 0, k));
    saturating_sub(k, bytes.len())
}

// Makes the first k stores of a record behind the first `at` bytes, which hold n records: its length, its bytes, the count's high byte and
// last its low byte, which makes the record one of the file.
fn make_record(body: &mut [u8], at: usize, n: usize, data: &[u8], k: usize)
    requires { (at ≡ used body.old) × (n ≡ count body.old) × (appendable body.old (length «data».now) ≡ true) }
    ensures { body.new ≡ made (take k (record_stores body.old «data».now)) body.old }
{
    let length = (data.len() as u16).to_le_bytes();
    let count = ((n + 1) as u16).to_le_bytes();
    let behind_low = make_one(body, at, length[0], k);
    let behind_length = make_one(body, at + 1, length[1], behind_low);
    let behind_data = make_run(body, at + 2, data, behind_length);
    let behind_high = make_one(body, 1, count[1], behind_data);
    make_one(body, 0, count[0], behind_high);
}

// Whether a body takes a record of len bytes, behind the first `at` bytes, which hold n records.
#[tactic(auto, unfolding(store_records::specs::Body::appendable, store_records::specs::Body::append_fits, base::specs::Choice::all_of))]
fn takes(body: &[u8], at: usize, n: usize, len: usize) -> bool
    requires { (at ≡ used body.now) × (n ≡ count body.now) }
    ensures { result ≡ appendable body.now len }
{
    body::fits_behind(body, at, len) && len <= 65535 && n < 65535
}

// Makes the first k stores of an append, where the body can take the record. Answers how many it has in all.
fn append_stores(body: &mut [u8], data: &[u8], k: usize) -> usize
    ensures { (result ≡ length (stores Record body.old «data».now)) × (body.new ≡ make_stores k Record body.old «data».now) }
{
    let n = body::count(body);
    let at = body::used(body);
    if !takes(body, at, n, data.len()) {
        return 0;
    }
    make_record(body, at, n, data, k);
    data.len() + 4
}

// The same of an activation, which has one store.
fn activate_stores(body: &mut [u8], data: &[u8], k: usize) -> usize
    ensures { (result ≡ length (stores State body.old «data».now)) × (body.new ≡ make_stores k State body.old «data».now) }
{
    if !biometrics::well_formed(body) {
        return 0;
    }
    make_one(body, 0, 1, k);
    1
}

// Makes the first k stores of what is written, all of them where k is more; none where the body cannot take it. Answers how many there
// are in all.
#[tactic(auto, unfolding(crate::specs::Stores::make_stores))]
pub fn make_stores(body: &mut [u8], w: Writing, data: &[u8], k: usize) -> usize
    ensures { (result ≡ length (stores w body.old «data».now)) × (body.new ≡ make_stores k w body.old «data».now) }
{
    match w {
        Writing::Record => append_stores(body, data, k),
        Writing::State => activate_stores(body, data, k),
    }
}
