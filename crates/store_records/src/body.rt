// Record bodies: the records of one file, lent as a part that starts in the middle of the image.
ghost use Rattle.std.specs.Prelude.{◌≡◌, ◌+◌, ◌≤◌, ◌<◌, min, length, leb};
ghost use Rattle.store_records.specs.Body.{count, place, behind, record_at, used, records, nth, append_fits, ok_at, body_ok};

use crate::little::read16;

// How many records.
#[tactic(auto, unfolding(crate::specs::Body::count))]
pub fn count(body: &[u8]) -> usize
    ensures { (result ≡ count body.now) × (result < 65536) }
{
    read16(body, 0)
}

// Where the record behind the first n stands. The sum cannot wrap, since a length has two bytes.
fn place_of(body: &[u8], n: usize) -> usize
    requires { n < 65536 }
    ensures { (result ≡ place body.now n) × (result < 8589934592) }
{
    let mut at = 2;
    for _ in 0..n {
        at = at + 2 + read16(body, at);
    }
    at
}

// The bytes used, which is where the free room begins.
#[tactic(auto, unfolding(crate::specs::Body::used))]
pub fn used(body: &[u8]) -> usize
    ensures { (result ≡ used body.now) × (result < 8589934592) }
{
    place_of(body, count(body))
}

// The same for any n, which is cut at the most that a count can say: where a walk over the records begins.
pub fn place(body: &[u8], n: usize) -> usize
    ensures { result ≡ place body.now (min n 65535) }
{
    place_of(body, n.min(65535))
}

// The record whose length stands at `at`, as the part of the body that it is.
pub fn record_at(body: &[u8], at: usize) -> &[u8]
    ensures { result.now ≡ record_at body.now at }
{
    if body.len() <= at {
        return base::part(body, 0, 0);
    }
    base::part(body, at + 2, read16(body, at))
}

// The place behind that record, where the next one stands; `at` itself past the body's end.
#[tactic(auto, unfolding(crate::specs::Body::behind))]
pub fn behind(body: &[u8], at: usize) -> usize
    ensures { result ≡ behind body.now at }
{
    if body.len() <= at {
        return at;
    }
    at + 2 + read16(body, at)
}

// Record n, counted from 1, as the part of the body that it is; an empty part where there is none.
pub fn record(body: &[u8], n: usize) -> &[u8]
    ensures { result.now ≡ nth (records body.now) n }
{
    if n == 0 || count(body) < n {
        return base::part(body, 0, 0);
    }
    record_at(body, place_of(body, n - 1))
}

// Whether n bytes and their length fit behind the first `at` bytes.
pub fn fits_behind(body: &[u8], at: usize, n: usize) -> bool
    ensures { result ≡ leb (at + 2 + n) (length body.now) }
{
    at <= body.len() && 2 <= body.len() - at && n <= body.len() - at - 2
}

// Whether an append of n bytes fits.
#[tactic(auto, unfolding(crate::specs::Body::append_fits))]
pub fn append_fits(body: &[u8], n: usize) -> bool
    ensures { result ≡ append_fits body.now n }
{
    fits_behind(body, used(body), n)
}

// Whether a record of 1 to `longest` bytes stands whole at `at`.
#[tactic(auto, unfolding(crate::specs::Body::ok_at, base::specs::Choice::all_of))]
fn record_ok(body: &[u8], at: usize, longest: usize) -> bool
    requires { at ≤ length body.now }
    ensures { result ≡ ok_at longest body.now at }
{
    let k = read16(body, at);
    1 <= k && k <= longest && 2 + k <= body.len() - at
}

// Whether a body has at most `most` records, each of 1 to `longest` bytes and whole.
#[tactic(auto, unfolding(crate::specs::Body::body_ok, base::specs::Choice::all_of))]
pub fn well_formed(body: &[u8], longest: usize, most: usize) -> bool
    ensures { result ≡ body_ok longest most body.now }
{
    if body.len() < 2 {
        return false;
    }
    let n = count(body);
    if most < n {
        return false;
    }
    let mut at = 2;
    for _ in 0..n {
        if !record_ok(body, at, longest) {
            return false;
        }
        at = at + 2 + read16(body, at);
    }
    true
}
