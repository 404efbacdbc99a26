// The card image: its sections, and each file's body in it. It knows nothing of commands, rights or sessions. Every
// function takes any bytes; what is not well formed gets the answer that says so.
#![tactic(auto)]

ghost use Rattle.std.specs.Prelude.{◌≡◌, ◌+◌, ◌≤◌, ◌<◌, length};
ghost use Rattle.store_kinds.specs.Biometrics.{updatable as takes_at};
ghost use Rattle.store_kinds.specs.Rules.{application_of};
ghost use Rattle.store_image.specs.Loops.{present_behind};
ghost use Rattle.store_image.specs.Image.{find, has, body, present, section_ok, well_formed, stores_in, make_stores_in, update_in};

use store_cut::Writing;
use store_kinds::biometrics;
use store_kinds::rules::{Kinds, application_of, kind_ok, present_by};
use store_records::little::{read16, read32};

// The first section of a kind.
pub fn find(image: &[u8], kind: usize) -> Option<(usize, usize)>
    ensures { result ≡ find image.now kind }
{
    let mut at = 0;
    // No `for`: how far the next section is stands in this one.
    while 6 <= image.len() - at {
        let len = read32(image, at);
        if image.len() - at - 6 < len {
            return None;
        }
        if read16(image, at + 4) == kind {
            return Some((at + 6, len));
        }
        at = at + 6 + len;
    }
    None
}

// Whether a section of a kind is there.
#[tactic(auto, unfolding(crate::specs::Image::has))]
pub fn has(image: &[u8], kind: usize) -> bool
    ensures { result ≡ has image.now kind }
{
    find(image, kind).is_some()
}

// The body of the file of a kind, as the part of the image that it is; an empty part where there is none.
#[tactic(auto, unfolding(crate::specs::Image::body))]
pub fn body(image: &[u8], kind: usize) -> &[u8]
    ensures { result.now ≡ body image.now kind }
{
    match find(image, kind) {
        Some((start, len)) => base::part(image, start, len),
        None => base::part(image, 0, 0),
    }
}

// An image tells by its sections which kinds are there.
#[derive(Clone, Copy)]
struct KindsIn<'a>(&'a [u8]);

impl Kinds for KindsIn<'_> {
    ghost kinds = { λ s. has s.0.now };

    fn has(&self, kind: usize) -> bool {
        has(self.0, kind)
    }
}

// Whether an application is present, which it is when its sections are.
#[tactic(auto, unfolding(crate::specs::Image::present))]
pub fn present(image: &[u8], application: usize) -> bool
    ensures { result ≡ present image.now application }
{
    present_by(&KindsIn(image), application)
}

// Whether the application of a kind is present, behind a section of kind `last`, whose application is; `last` is 0 where there is none
// before. So the image is searched for an application only at its first section.
#[tactic(auto, unfolding(crate::specs::Image::present, store_kinds::specs::Rules::application_of))]
fn beside(image: &[u8], last: usize, kind: usize) -> bool
    requires { present_behind image.now last }
    ensures { result ≡ present image.now (application_of kind) }
{
    let application = application_of(kind);
    (last != 0 && application_of(last) == application) || present(image, application)
}

// Whether the section at `at` is right, behind one of kind `last`.
#[tactic(auto, unfolding(crate::specs::Image::section_ok, base::specs::Choice::all_of))]
fn section_ok(image: &[u8], at: usize, last: usize) -> bool
    requires { (at ≤ length image.now) × present_behind image.now last }
    ensures { result ≡ section_ok image.now at last }
{
    if image.len() - at < 6 {
        return false;
    }
    let len = read32(image, at);
    if image.len() - at - 6 < len {
        return false;
    }
    let kind = read16(image, at + 4);
    last < kind && kind_ok(kind, base::part(image, at + 6, len)) && beside(image, last, kind)
}

// Whether an image is well formed.
#[tactic(auto, unfolding(crate::specs::Image::well_formed, base::specs::Choice::all_of))]
pub fn well_formed(image: &[u8]) -> bool
    ensures { result ≡ well_formed image.now }
{
    if 262144 < image.len() {
        return false;
    }
    let mut at = 0;
    let mut last = 0;
    // No `for`: how far the next section is stands in this one.
    while at < image.len() {
        if !section_ok(image, at, last) {
            return false;
        }
        last = read16(image, at + 4);
        at = at + 6 + read32(image, at);
    }
    true
}

// Makes the first k stores of what is written to the file of a kind, all of them where k is more; none where the file is not there or cannot
// take it. Answers how many there are in all. A record and a state of a card in use are written here and nowhere else.
pub fn make_stores(image: &mut [u8], kind: usize, w: Writing, data: &[u8], k: usize) -> usize
    ensures { (result ≡ length (stores_in image.old kind w «data».now)) × (image.new ≡ make_stores_in k image.old kind w «data».now) }
{
    let Some((start, len)) = find(image, kind) else {
        return 0;
    };
    store_cut::make_stores(&mut image[start..start + len], w, data, k)
}

// Writes data from `offset` of the room of the file of a kind on, where it is there and can take it; else it changes nothing. Answers whether
// it could.
pub fn update(image: &mut [u8], kind: usize, offset: usize, data: &[u8]) -> bool
    ensures { (result ≡ takes_at (body image.old kind) offset (length «data».now)) × (image.new ≡ update_in image.old kind offset «data».now) }
{
    let Some((start, len)) = find(image, kind) else {
        return false;
    };
    biometrics::update(&mut image[start..start + len], offset, data)
}
