// A list of kinds with the lengths of their rooms, and whether it lays out a card. A row has the bytes of a section's head: 4-byte
// little-endian length, 2-byte little-endian kind.
#![tactic(auto)]

ghost use Rattle.std.specs.Prelude.{◌≡◌, ◌<◌, length};
ghost use Rattle.store_kinds.specs.Rules.{kind_ok};
ghost use Rattle.store_image.specs.Image.{has, present, section_ok};
ghost use Rattle.store_move_plan.specs.Rooms.{rows, zeros, no_content, sections, blank, plan};

use store_kinds::biometrics::LARGEST_ROOM;
use store_kinds::rules::{Key, Kinds, application_of, find_rule, is_biometrics, present_by};
use store_records::little::{read16, read32};

// Whether a list has a row of a kind.
pub fn listed(list: &[u8], kind: usize) -> bool
    ensures { result ≡ has (blank list.now) kind }
{
    for i in 0..list.len() / 6 {
        if read16(list, 6 * i + 4) == kind {
            return true;
        }
    }
    false
}

// A list tells by its rows which kinds are there.
#[derive(Clone, Copy)]
struct KindsIn<'a>(&'a [u8]);

impl Kinds for KindsIn<'_> {
    ghost kinds = { λ s. has (blank s.0.now) };

    fn has(&self, kind: usize) -> bool {
        listed(self.0, kind)
    }
}

// Whether all sections of an application have rows.
#[tactic(auto, unfolding(store_image::specs::Image::present, crate::specs::Rooms::blank))]
fn present(list: &[u8], application: usize) -> bool
    ensures { result ≡ present (blank list.now) application }
{
    present_by(&KindsIn(list), application)
}

// Whether a kind is known and can have a room of a length: the empty body of that length is one of the kind.
fn room_ok(kind: usize, len: usize) -> bool
    ensures { result ≡ kind_ok kind (zeros len) }
{
    match find_rule(Key::Kind(kind)) {
        Some(_) => 2 <= len,
        // No `&&`: tried, and its proof did not close.
        None => {
            if !is_biometrics(kind) {
                return false;
            }
            if len < 5 {
                return false;
            }
            len - 5 <= LARGEST_ROOM
        }
    }
}

// Whether row i is right behind one of kind `last`.
#[tactic(auto, unfolding(crate::specs::Rooms::rows))]
fn row_ok(list: &[u8], i: usize, last: usize) -> bool
    requires { i < rows list.now }
    ensures { result ≡ section_ok (blank list.now) (length (sections no_content list.now i)) last }
{
    let kind = read16(list, 6 * i + 4);
    if kind <= last || !room_ok(kind, read32(list, 6 * i)) {
        return false;
    }
    present(list, application_of(kind))
}

// How long the image is that a list lays out, where it lays out a valid one.
pub fn plan(list: &[u8]) -> Option<usize>
    ensures { result ≡ plan list.now }
{
    if list.len() % 6 != 0 {
        return None;
    }
    let mut at = 0;
    let mut last = 0;
    for i in 0..list.len() / 6 {
        let len = read32(list, 6 * i);
        if 262144 - at < 6 + len {
            return None;
        }
        if !row_ok(list, i, last) {
            return None;
        }
        last = read16(list, 6 * i + 4);
        at = at + 6 + len;
    }
    Some(at)
}
