// An index of the records of a file: a lent list of places, one for each record, and a record by its place alone. Every function takes any
// kind, any bytes, any list and any number. A list changes only where it is not refused.
#![tactic(auto)]

ghost use Rattle.std.specs.Prelude.{◌≡◌, ◌≤◌, ◌<◌, length, leb};
ghost use Rattle.std.proofs.lemmas.List.Edits.{sets};
ghost use Rattle.store_records.specs.Body.{next_place, place};
ghost use Rattle.store_index.specs.Index.{places_to, record_file_ok, build, build_into, extend, extend_into, measure, IndexedPart};

use store_kinds::rules::{is_biometrics, kind_ok};
use store_records::body;
use store_records::little::read16;

// Whether a kind is that of a record file and a body is one of that kind.
fn record_file_ok(kind: usize, body: &[u8]) -> bool
    ensures { result ≡ record_file_ok kind body.now }
{
    !is_biometrics(kind) && kind_ok(kind, body)
}

// Writes the places of the first n records.
fn fill(body: &[u8], n: usize, places: &mut [u32])
    requires { (place body.now n ≤ length body.now) × (place body.now n < 262144) × (n ≤ length places.old) }
    ensures { places.new ≡ sets places.old 0 (places_to body.now n) }
{
    let mut at: usize = 2;
    for place in &mut places[..n] {
        *place = at as u32;
        at = at + 2 + read16(body, at);
    }
}

// Builds an index: the places of all records. The body is tested before the first place is written, so that a refused list stays.
#[tactic(auto, unfolding(crate::specs::Index::build_ok, crate::specs::Index::build, crate::specs::Index::build_into, base::specs::Choice::all_of))]
pub fn build(kind: usize, body: &[u8], places: &mut [u32]) -> Option<usize>
    ensures { (result ≡ build kind body.now places.old) × (places.new ≡ build_into kind body.now places.old) }
{
    if !record_file_ok(kind, body) {
        return None;
    }
    let n = body::count(body);
    if places.len() < n {
        return None;
    }
    fill(body, n, places);
    Some(n)
}

// Extends an index of n places after an append: the place of record n + 1. Each test is made so that n + 1 cannot wrap.
#[tactic(auto, unfolding(crate::specs::Index::extend_ok, crate::specs::Index::extend, crate::specs::Index::extend_into, base::specs::Choice::all_of))]
pub fn extend(kind: usize, body: &[u8], places: &mut [u32], n: usize) -> Option<usize>
    ensures { (result ≡ extend kind body.now places.old n) × (places.new ≡ extend_into kind body.now places.old n) }
{
    if !record_file_ok(kind, body) {
        return None;
    }
    let all = body::count(body);
    if all <= n || n + 1 < all || places.len() <= n {
        return None;
    }
    places[n] = body::place(body, n) as u32;
    Some(all)
}

// Whether a length field stands at `at` within the body, and as many bytes as it says.
fn stands_whole(body: &[u8], at: usize) -> bool
    ensures { result ≡ leb (next_place body.now at) (length body.now) }
{
    2 <= body.len() && at <= body.len() - 2 && read16(body, at) <= body.len() - 2 - at
}

// How many bytes the record of a number has, by its place alone: no other record is looked at.
#[tactic(auto, unfolding(crate::specs::Index::measure, crate::specs::Index::read_ok, crate::specs::Index::place_for, base::specs::Choice::all_of))]
pub fn measure(body: &[u8], places: &[u32], number: usize) -> Option<usize>
    ensures { result ≡ measure body.now places.now number }
{
    if number < 1 || places.len() < number {
        return None;
    }
    let at = places[number - 1] as usize;
    if !stands_whole(body, at) {
        return None;
    }
    Some(read16(body, at))
}

// The record of a number, as the part of the body that it is; an empty part on a refusal.
pub fn read<'a>(body: &'a [u8], places: &[u32], number: usize) -> &'a [u8]
    ensures { IndexedPart (measure body.now places.now number) places.now number body.entry result }
{
    match measure(body, places, number) {
        Some(n) => base::whole_part(body, places[number - 1] as usize + 2, n),
        None => base::whole_part(body, 0, 0),
    }
}
