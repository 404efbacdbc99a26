// The files of a card: which file an id or a short id means, and what a transparent file holds.
#![tactic(auto)]

ghost use Rattle.std.specs.Prelude.{◌≡◌, true, ◌+◌, ◌≤◌, ◌<◌, length, take};
ghost use Rattle.std.proofs.lemmas.List.Edits.{sets};
ghost use Rattle.base.specs.Choice.{if_else};
ghost use Rattle.base.specs.Bytes.{part, put_fits, put};
ghost use Rattle.store_image.specs.Image.{has};
ghost use Rattle.store_files.specs.Master.{info, agrees_to, aid_of, entry as entry_bytes, entry_of, dir};
ghost use Rattle.store_files.specs.Files.{biometrics_by_id, master_by, by_id, by_short, transparent_id, id_of, file_bytes};

use store_kinds::rules::{Key, Rule};
use store_kinds::{biometrics, rules};

// A file of bytes: the two of the master file, and Biometrics n.
#[derive(Clone, Copy)]
pub enum Transparent {
    Info,
    Dir,
    Biometrics(u8),
}

// A file of a card.
#[derive(Clone, Copy)]
pub enum File {
    RecordFile(Rule),
    TransparentFile(Transparent),
}

// The record file of a rule, if the card has it.
#[tactic(auto, unfolding(store_image::specs::Image::has))]
fn of_rule(image: &[u8], r: Rule) -> Option<File>
    ensures { result ≡ if_else (has image.now r.kind) (Some (File.RecordFile r)) None }
{
    if store_image::has(image, r.kind) {
        Some(File::RecordFile(r))
    } else {
        None
    }
}

// The biometrics file of an id, if the card has it.
#[tactic(auto, unfolding(crate::specs::Files::biometrics_by_id, base::specs::Choice::all_of))]
fn biometrics_by_id(image: &[u8], application: usize, id: usize) -> Option<File>
    ensures { result ≡ biometrics_by_id image.now application id }
{
    if application != rules::BIOMETRICS || !(0x0201..=0x0240).contains(&id) {
        return None;
    }
    let n = (id - 0x0200) as u8;
    if store_image::has(image, rules::biometrics_kind(n)) {
        Some(File::TransparentFile(Transparent::Biometrics(n)))
    } else {
        None
    }
}

// A file of the master file, by the numbers that EF.ATR/INFO and EF.DIR go by.
#[tactic(auto, unfolding(crate::specs::Files::master_by))]
fn master_by(of_info: usize, of_dir: usize, i: usize) -> Option<File>
    ensures { result ≡ master_by of_info of_dir i }
{
    if i == of_info {
        Some(File::TransparentFile(Transparent::Info))
    } else if i == of_dir {
        Some(File::TransparentFile(Transparent::Dir))
    } else {
        None
    }
}

// The file of an id in an application; the master file is application 0.
#[tactic(auto, unfolding(crate::specs::Files::by_id))]
pub fn by_id(image: &[u8], application: usize, id: usize) -> Option<File>
    ensures { result ≡ by_id image.now application id }
{
    if application == 0 {
        return master_by(0x2F01, 0x2F00, id);
    }
    match rules::find_rule(Key::Id(application, id)) {
        Some(r) => of_rule(image, r),
        None => biometrics_by_id(image, application, id),
    }
}

// The file of a short id in an application.
#[tactic(auto, unfolding(crate::specs::Files::by_short))]
pub fn by_short(image: &[u8], application: usize, short: usize) -> Option<File>
    ensures { result ≡ by_short image.now application short }
{
    if application == 0 {
        return master_by(0x01, 0x1E, short);
    }
    of_rule(image, rules::find_rule(Key::Short(application, short))?)
}

// The id of a transparent file.
#[tactic(auto, unfolding(crate::specs::Files::transparent_id))]
fn transparent_id(t: Transparent) -> usize
    ensures { result ≡ transparent_id t }
{
    match t {
        Transparent::Info => 0x2F01,
        Transparent::Dir => 0x2F00,
        Transparent::Biometrics(n) => 0x0200 + usize::from(n),
    }
}

// The id of a file.
#[tactic(auto, unfolding(crate::specs::Files::id_of))]
pub fn id_of(f: File) -> usize
    ensures { result ≡ id_of f }
{
    match f {
        File::RecordFile(r) => r.id,
        File::TransparentFile(t) => transparent_id(t),
    }
}

const INFO: [u8; 16] = *b"\x47\x03\x86\x01\xE0\x7F\x66\x08\x02\x02\x04\x00\x02\x02\x08\x02";

// What the AIDs of the four applications begin with.
const AID: [u8; 5] = *b"\xA0\x00\x00\x02\x47";

// Whether the data begins as an AID does.
fn agrees(data: &[u8]) -> bool
    ensures { result ≡ agrees_to «data».now 5 }
{
    data.starts_with(&AID)
}

// The application whose AID the data is.
#[tactic(auto, unfolding(crate::specs::Master::aid_of, base::specs::Choice::all_of))]
pub fn aid_of(data: &[u8]) -> Option<usize>
    ensures { result ≡ aid_of «data».now }
{
    if data.len() == 7 && agrees(data) && base::byte(data, 5) == 0x20 {
        Some(base::byte(data, 6))
    } else {
        None
    }
}

// An application's entry of EF.DIR, by the last two bytes of its AID.
#[tactic(auto, unfolding(crate::specs::Master::entry, crate::specs::Master::aid, crate::specs::Master::aid_prefix))]
fn entry(x: u8, y: u8) -> [u8; 11]
    ensures { result ≡ entry_bytes x y }
{
    [
        0x61, 0x09, 0x4F, 0x07, AID[0], AID[1], AID[2], AID[3], AID[4], x, y,
    ]
}

// Stores the entry of an application behind the first `at` bytes, if it is present. Answers the place behind it.
#[tactic(auto, unfolding(crate::specs::Master::entry_of))]
fn put_entry(image: &[u8], application: usize, out: &mut [u8], at: usize) -> usize
    requires { (at + 11 ≤ length out.old) × (application < 256) }
    ensures { (result ≡ at + length (entry_of image.now application)) × (out.new ≡ sets out.old at (entry_of image.now application)) }
{
    if !store_image::present(image, application) {
        return at;
    }
    base::put(out, at, &entry(0x20, application as u8));
    at + 11
}

// EF.DIR, in the first `len` of the bytes.
#[derive(Clone, Copy)]
pub struct Directory {
    pub bytes: [u8; 44],
    pub len: usize,
}

fn directory_of(image: &[u8]) -> Directory
    ensures { (take result.len result.bytes ≡ dir image.now) × (result.len ≡ length (dir image.now)) }
{
    let mut bytes = [0u8; 44];
    base::put(&mut bytes, 0, &entry(0x10, 0x01));
    let mut at = 11;
    for application in rules::TRAVEL..=rules::BIOMETRICS {
        at = put_entry(image, application, &mut bytes, at);
    }
    Directory { bytes, len: at }
}

// Stores the n bytes from offset on of the first len of bytes, from `at` of out on.
#[tactic(auto, unfolding(base::specs::Bytes::put_fits, base::specs::Bytes::put))]
fn put_first(
    bytes: [u8; 44],
    len: usize,
    offset: usize,
    n: usize,
    out: &mut [u8],
    at: usize,
) -> bool
    ensures { (result ≡ put_fits out.old at (part (take len bytes) offset n)) × (out.new ≡ put out.old at (part (take len bytes) offset n)) }
{
    base::put(out, at, base::part(base::part(&bytes, 0, len), offset, n))
}

// How many bytes a transparent file has.
#[tactic(auto, unfolding(crate::specs::Files::file_bytes, crate::specs::Master::info))]
pub fn size(image: &[u8], t: Transparent) -> usize
    ensures { result ≡ length (file_bytes image.now t) }
{
    match t {
        Transparent::Info => 16,
        Transparent::Dir => directory_of(image).len,
        Transparent::Biometrics(n) => {
            biometrics::written_bytes(store_image::body(image, rules::biometrics_kind(n))).len()
        }
    }
}

// Stores the n bytes of a transparent file from offset on, cut at its end, from `at` of out on, where they fit.
#[tactic(auto, unfolding(crate::specs::Files::file_bytes, crate::specs::Master::info, base::specs::Bytes::put_fits, base::specs::Bytes::put))]
pub fn put_bytes(
    image: &[u8],
    t: Transparent,
    offset: usize,
    n: usize,
    out: &mut [u8],
    at: usize,
) -> bool
    ensures { (result ≡ put_fits out.old at (part (file_bytes image.now t) offset n)) × (out.new ≡ put out.old at (part (file_bytes image.now t) offset n)) }
{
    match t {
        Transparent::Info => base::put(out, at, base::part(&INFO, offset, n)),
        Transparent::Dir => {
            let d = directory_of(image);
            put_first(d.bytes, d.len, offset, n, out, at)
        }
        Transparent::Biometrics(k) => {
            let s = biometrics::written_bytes(store_image::body(image, rules::biometrics_kind(k)));
            base::put(out, at, base::part(s, offset, n))
        }
    }
}
