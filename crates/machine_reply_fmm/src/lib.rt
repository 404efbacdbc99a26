// The data of FILE AND MEMORY MANAGEMENT: a file's three numbers, and the reply that lists those asked for, stored whole or not at all.
#![tactic(auto)]

ghost use Rattle.std.specs.Prelude.{◌≡◌, ◌+◌, ◌/◌, ◌≤◌, length};
ghost use Rattle.base.specs.Bytes.{put};
ghost use Rattle.objects_writer.specs.Writer.{put_end};
ghost use Rattle.machine_reply_fmm.specs.Report.{capacity, further, transparent_total, total, remaining, existing, asked, report_data};

use store_files::{File, Transparent};
use store_kinds::{biometrics, rules};
use store_records::body;

// The bytes that records can have in a body, next to the count and the lengths.
fn capacity(body: &[u8]) -> usize
    ensures { result ≡ capacity body.now }
{
    body.len()
        .saturating_sub(2)
        .saturating_sub(2 * body::count(body))
}

// How many records of the longest kind go into the free bytes, each with its length; none where the sum would wrap.
fn times(free: usize, longest: usize) -> usize
    ensures { result ≡ free / (2 + longest) }
{
    match longest.checked_add(2) {
        Some(each) => free / each,
        None => 0,
    }
}

// How many more records a record body surely takes.
fn further(body: &[u8], longest: usize, most: usize) -> usize
    ensures { result ≡ further longest most body.now }
{
    let left = most.saturating_sub(body::count(body));
    let free = body.len().saturating_sub(body::used(body));
    left.min(times(free, longest))
}

fn transparent_total(image: &[u8], t: Transparent) -> usize
    ensures { result ≡ transparent_total image.now t }
{
    match t {
        Transparent::Info => store_files::size(image, t),
        Transparent::Dir => store_files::size(image, t),
        Transparent::Biometrics(n) => biometrics::room(store_image::body(
            image,
            rules::biometrics_kind(n),
        )),
    }
}

// A file's total.
pub fn total(image: &[u8], f: File) -> usize
    ensures { result ≡ total image.now f }
{
    match f {
        File::RecordFile(r) => capacity(store_image::body(image, r.kind)),
        File::TransparentFile(t) => transparent_total(image, t),
    }
}

// How many more records a file surely takes; 0 for one without records.
pub fn remaining(image: &[u8], f: File) -> usize
    ensures { result ≡ remaining image.now f }
{
    match f {
        File::RecordFile(r) => further(store_image::body(image, r.kind), r.longest, r.most),
        File::TransparentFile(_) => 0,
    }
}

// How many records a file has; 0 for one without records.
pub fn existing(image: &[u8], f: File) -> usize
    ensures { result ≡ existing image.now f }
{
    match f {
        File::RecordFile(r) => body::count(store_image::body(image, r.kind)),
        File::TransparentFile(_) => 0,
    }
}

// How many bytes the object of a number takes, where its bit asks for it. (The tag, of one byte, does not matter.)
fn asked_length(bit: usize, tag: u8, n: usize) -> usize
    ensures { (result ≡ length (asked bit tag n)) × (result ≤ 10) }
{
    if bit == 1 {
        return 2 + objects_writer::fewest(n);
    }
    0
}

// Stores the object of a number from `at` on, where its bit asks for it. Answers the place behind it.
fn put_asked(out: &mut [u8], at: usize, bit: usize, tag: u8, n: usize) -> usize
    ensures { (result ≡ put_end out.old at (asked bit tag n)) × (out.new ≡ put out.old at (asked bit tag n)) }
{
    if bit == 1 {
        return objects_writer::put_number(out, at, tag, n);
    }
    at
}

// Stores the numbers that P2 asks for, of total, remaining and existing, at the start of out, where there is room for all of it. Answers
// its length.
pub fn put_report(
    out: &mut [u8],
    p2: usize,
    total: usize,
    remaining: usize,
    existing: usize,
) -> usize
    ensures { (result ≡ put_end out.old 0 (report_data p2 total remaining existing)) × (out.new ≡ put out.old 0 (report_data p2 total remaining existing)) }
{
    if p2 == 0 {
        return 0;
    }
    let b1 = p2 % 2;
    let b2 = p2 / 2 % 2;
    let b3 = p2 / 4 % 2;
    let len = asked_length(b1, 0x81, total)
        + asked_length(b2, 0x82, remaining)
        + asked_length(b3, 0x83, existing);
    if out.len() < 3 + len {
        return 0;
    }
    let first = objects_writer::put_head(out, 0, 0x7F78, len);
    let second = put_asked(out, first, b1, 0x81, total);
    let third = put_asked(out, second, b2, 0x82, remaining);
    put_asked(out, third, b3, 0x83, existing)
}
