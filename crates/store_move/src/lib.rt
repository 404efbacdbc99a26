// The move of a card to other rooms: every file of the old image with all its content, in a new image that a list of rooms lays out.
#![tactic(auto)]

ghost use Rattle.std.specs.Prelude.{◌≡◌, true, ◌++◌, ◌+◌, ◌-◌, ◌≤◌, length, drop, leb};
ghost use Rattle.store_image.specs.Image.{has, well_formed, body};
ghost use Rattle.store_move_plan.specs.Rooms.{zeros, filled, blank};
ghost use Rattle.store_move.specs.Moving.{content_length, content, moved, lists, roomy, move_card, move_card_into};
ghost use Rattle.store_move.specs.Loops.{Standing, meets};

use store_image::{body, well_formed};
use store_kinds::biometrics::written;
use store_kinds::rules::is_biometrics;
use store_move_plan::{listed, plan};
use store_records::body::used;
use store_records::little::{read16, read32};

// Why a move is refused: the old image is not well formed, the list lays out no image, a kind of the old image is not in the list, a room is
// too small for its content, the target is too short for the new image.
#[derive(Clone, Copy)]
pub enum MoveRefusal {
    BadImage,
    BadList,
    MissingKind,
    SmallRoom,
    ShortTarget,
}

// How many bytes of a body are content.
#[tactic(auto, unfolding(crate::specs::Moving::content_length, store_image::specs::Image::body))]
fn content_length(kind: usize, body: &[u8]) -> usize
    ensures { result ≡ content_length kind body.now }
{
    if is_biometrics(kind) {
        5 + written(body)
    } else {
        used(body)
    }
}

// Whether the section at `from` is of a kind.
#[tactic(auto, unfolding(crate::specs::Loops::meets, base::specs::Choice::all_of))]
fn met(old: &[u8], from: usize, kind: usize) -> bool
    requires { Standing old.now from }
    ensures { result ≡ meets old.now from kind }
{
    from < old.len() && read16(old, from + 4) == kind
}

// The place behind the section at `from`, where it is of a kind; else `from`.
fn behind(old: &[u8], from: usize, kind: usize) -> usize
    requires { Standing old.now from }
    ensures { Standing old.now result }
{
    if met(old, from, kind) {
        from + 6 + read32(old, from)
    } else {
        from
    }
}

// The body of the file of a kind. Where a list has the old image's kinds in their order, each is the one at `from`, behind the one
// before, so that all of them are one walk.
fn body_near(old: &[u8], from: usize, kind: usize) -> &[u8]
    requires { Standing old.now from }
    ensures { result.now ≡ body old.now kind }
{
    if met(old, from, kind) {
        base::part(old, from + 6, read32(old, from))
    } else {
        body(old, kind)
    }
}

// The content of the file of a kind, as the part of the image that it is; an empty part where there is no such file.
#[tactic(auto, unfolding(crate::specs::Moving::content))]
fn content(old: &[u8], from: usize, kind: usize) -> &[u8]
    requires { Standing old.now from }
    ensures { result.now ≡ content old.now kind }
{
    let b = body_near(old, from, kind);
    base::part(b, 0, content_length(kind, b))
}

// Whether a list has a row of a kind, which is row i where the list has the old image's kinds in their order.
fn listed_near(list: &[u8], i: usize, kind: usize) -> bool
    ensures { result ≡ has (blank list.now) kind }
{
    if i < list.len() / 6 && read16(list, 6 * i + 4) == kind {
        return true;
    }
    listed(list, kind)
}

// Whether a list has the kind of each section of the old image.
fn lists(old: &[u8], list: &[u8]) -> bool
    requires { well_formed old.now ≡ true }
    ensures { result ≡ lists old.now list.now }
{
    let mut at = 0;
    let mut i = 0;
    // No `for`: how far the next section is stands in this one.
    while at < old.len() {
        if !listed_near(list, i, read16(old, at + 4)) {
            return false;
        }
        at = at + 6 + read32(old, at);
        i += 1;
    }
    true
}

// Whether the content of the file of a kind fits in a room. Where all of its body does, so does its content, and its records need not be
// walked.
#[tactic(auto, unfolding(crate::specs::Moving::content))]
fn fits(old: &[u8], from: usize, kind: usize, room: usize) -> bool
    requires { Standing old.now from }
    ensures { result ≡ leb (length (content old.now kind)) room }
{
    let b = body_near(old, from, kind);
    b.len() <= room || content_length(kind, b) <= room
}

// Whether each content fits in its room.
fn roomy(old: &[u8], list: &[u8]) -> bool
    requires { well_formed old.now ≡ true }
    ensures { result ≡ roomy old.now list.now }
{
    let mut from = 0;
    for i in 0..list.len() / 6 {
        let kind = read16(list, 6 * i + 4);
        if !fits(old, from, kind, read32(list, 6 * i)) {
            return false;
        }
        from = behind(old, from, kind);
    }
    true
}

// Writes a section: its head, its content, and zeros up to its end.
fn write_section(section: &mut [u8], head: &[u8], content: &[u8])
    requires { (length head.now ≡ 6) × (6 + length content.now ≤ length section.old) }
    ensures { section.new ≡ head.now ++ filled (length section.old - 6) content.now }
{
    base::put(section, 0, head);
    base::put(section, 6, content);
    section[6 + content.len()..].fill(0);
}

// Writes the new image.
fn write(old: &[u8], list: &[u8], target: &mut [u8])
    requires { (well_formed old.now ≡ true) × (roomy old.now list.now ≡ true) × (length (moved old.now list.now) ≤ length target.old) }
    ensures { target.new ≡ moved old.now list.now ++ drop (length (moved old.now list.now)) target.old }
{
    let mut from = 0;
    let mut at = 0;
    for i in 0..list.len() / 6 {
        let kind = read16(list, 6 * i + 4);
        let end = at + 6 + read32(list, 6 * i);
        write_section(
            &mut target[at..end],
            base::part(list, 6 * i, 6),
            content(old, from, kind),
        );
        from = behind(old, from, kind);
        at = end;
    }
}

// Moves every file of the old image into the target, by a list of rooms.
#[tactic(auto, unfolding(crate::specs::Moving::move_card, crate::specs::Moving::move_card_into))]
pub fn move_card(old: &[u8], list: &[u8], target: &mut [u8]) -> Result<usize, MoveRefusal>
    ensures { (result ≡ move_card old.now list.now (length target.old)) × (target.new ≡ move_card_into old.now list.now target.old) }
{
    if !well_formed(old) {
        return Err(MoveRefusal::BadImage);
    }
    let Some(n) = plan(list) else {
        return Err(MoveRefusal::BadList);
    };
    if !lists(old, list) {
        return Err(MoveRefusal::MissingKind);
    }
    if !roomy(old, list) {
        return Err(MoveRefusal::SmallRoom);
    }
    if target.len() < n {
        return Err(MoveRefusal::ShortTarget);
    }
    write(old, list, target);
    Ok(n)
}
