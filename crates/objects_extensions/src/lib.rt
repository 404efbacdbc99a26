// The rights that certificate extensions give: a run of extensions for each of three certificates, and the 60 bytes that an opening takes.
// A run is walked once. What it gives is put into the 20 bytes of its certificate. The first of these, the flags, tells which known
// extensions were there already.
#![tactic(auto)]

ghost use Rattle.std.specs.Prelude.{◌≡◌, ◌≤◌, length};
ghost use Rattle.base.specs.Bytes.{same_bytes};
ghost use Rattle.objects_extensions.specs.Extensions.{identifier_of, size_of, flag_of};
ghost use Rattle.objects_extensions.specs.Read.{rights_place, has_flag, keeps_known, keeps, extension_on, run_on, runs_on, runs_into, read_rights, read_rights_into};

use base::{byte, part, put, same_bytes};
use objects_reader::head::header;
use objects_reader::reader::read_all;

// The extensions that are known, by what their rights are for.
#[derive(Clone, Copy)]
pub enum Known {
    Travel,
    Visa,
    Biometrics,
}

// What is wrong with an extension: its form or the size of its rights; or it is a known one for the second time in its run.
#[derive(Clone, Copy)]
pub enum ExtensionFault {
    Malformed,
    Twice,
}

// Why the rights of three runs are not given: the buffer is too short for them, or an extension has a fault.
#[derive(Clone, Copy)]
pub enum RightsFault {
    ShortBuffer,
    Faulty(ExtensionFault),
}

// Tag, rows inside, 0 where optional, fewest and most bytes. A length says at most 65,535.
pub const EXTENSION: [[u16; 5]; 3] = [
    [0x73, 2, 1, 0, 0],
    [0x06, 0, 1, 0, 65535], // identifier
    [0x53, 0, 1, 0, 65535], // rights
];

const TRAVEL: &[u8] = &[0x67, 0x81, 0x08, 0x01, 0x01, 0x09, 0x01, 0x03];

const VISA: &[u8] = &[0x67, 0x81, 0x08, 0x01, 0x01, 0x09, 0x02, 0x03];

const BIOMETRICS: &[u8] = &[0x67, 0x81, 0x08, 0x01, 0x01, 0x09, 0x03, 0x03];

// Whether an identifier is that of a known extension.
fn is_for(id: &[u8], k: Known) -> bool
    ensures { result ≡ same_bytes id.now (identifier_of k) }
{
    match k {
        Known::Travel => same_bytes(id, TRAVEL),
        Known::Visa => same_bytes(id, VISA),
        Known::Biometrics => same_bytes(id, BIOMETRICS),
    }
}

// How many bytes its rights have.
fn size(k: Known) -> usize
    ensures { result ≡ size_of k }
{
    match k {
        Known::Travel | Known::Visa => 1,
        Known::Biometrics => 17,
    }
}

// The value of its flag.
fn flag(k: Known) -> usize
    ensures { result ≡ flag_of k }
{
    match k {
        Known::Travel => 1,
        Known::Visa => 2,
        Known::Biometrics => 4,
    }
}

// The place of its rights among a certificate's 20 bytes.
fn place(k: Known) -> usize
    ensures { result ≡ rights_place k }
{
    match k {
        Known::Travel => 1,
        Known::Visa => 2,
        Known::Biometrics => 3,
    }
}

// Whether a certificate's bytes have its flag.
fn has_flag(c: &[u8], k: Known) -> bool
    ensures { result ≡ has_flag k c.now }
{
    byte(c, 0) / flag(k) % 2 == 1
}

// Puts the rights of a known extension among a certificate's bytes, which stay where it has a fault.
fn keep_known(k: Known, v: &[u8], c: &mut [u8]) -> Result<(), ExtensionFault>
    ensures { (result ≡ (keeps_known k c.old v.now).read) × (c.new ≡ (keeps_known k c.old v.now).bytes) }
{
    if v.len() != size(k) {
        return Err(ExtensionFault::Malformed); // 7 comes before 8
    }
    if has_flag(c, k) {
        return Err(ExtensionFault::Twice);
    }
    let marked = [(byte(c, 0) | flag(k)) as u8];
    put(c, 0, &marked);
    put(c, place(k), v);
    Ok(())
}

// The same for any extension, by its identifier and its rights. One that is not known changes nothing.
fn keep(id: &[u8], v: &[u8], c: &mut [u8]) -> Result<(), ExtensionFault>
    ensures { (result ≡ (keeps c.old (record { identifier = id.now; rights = v.now })).read) × (c.new ≡ (keeps c.old (record { identifier = id.now; rights = v.now })).bytes) }
{
    if is_for(id, Known::Travel) {
        keep_known(Known::Travel, v, c)
    } else if is_for(id, Known::Visa) {
        keep_known(Known::Visa, v, c)
    } else if is_for(id, Known::Biometrics) {
        keep_known(Known::Biometrics, v, c)
    } else {
        Ok(())
    }
}

// The same for the bytes of an extension.
fn extension(t: &[u8], c: &mut [u8]) -> Result<(), ExtensionFault>
    ensures { (result ≡ (extension_on c.old t.now).read) × (c.new ≡ (extension_on c.old t.now).bytes) }
{
    let q = read_all(t, &EXTENSION);
    if q.fault.is_some() {
        return Err(ExtensionFault::Malformed);
    }
    keep(
        part(t, q.places[0].at, q.places[0].len),
        part(t, q.places[1].at, q.places[1].len),
        c,
    )
}

// The same for a run of extensions, up to the first that has a fault. The head is read here to know where an extension ends; the reader
// then reads all of it.
fn run(s: &[u8], c: &mut [u8]) -> Result<(), ExtensionFault>
    ensures { (result ≡ (run_on c.old s.now).read) × (c.new ≡ (run_on c.old s.now).bytes) }
{
    let mut rest = s;
    while !rest.is_empty() {
        let Ok((start, len)) = header(rest, 0x73) else {
            return Err(ExtensionFault::Malformed);
        };
        let (front, behind) = rest.split_at(start + len);
        extension(front, c)?;
        rest = behind;
    }
    Ok(())
}

// Puts the 60 bytes that three runs give into the first bytes of a buffer, up to the first run that has a fault: then nothing is put.
fn three_runs(
    first: &[u8],
    second: &[u8],
    third: &[u8],
    rights: &mut [u8],
) -> Result<(), ExtensionFault>
    requires { 60 ≤ length rights.old }
    ensures { (result ≡ (runs_on first.now second.now third.now).read) × (rights.new ≡ runs_into first.now second.now third.now rights.old) }
{
    let mut a = [0u8; 20];
    run(first, &mut a)?;
    let mut b = [0u8; 20];
    let y = run(second, &mut b);
    y?;
    let mut c = [0u8; 20];
    let z = run(third, &mut c);
    // No `?`: the edit refused_kept looks at y here, and behind a `?` it would be refused for the name of a goal alone.
    if let Err(fault) = z {
        return Err(fault);
    }
    put(rights, 0, &a);
    put(rights, 20, &b);
    put(rights, 40, &c);
    Ok(())
}

// Writes the 60 bytes that three runs give into the first bytes of a buffer: zeros where a run has a fault, and nothing where there is no room.
pub fn read_rights(
    first: &[u8],
    second: &[u8],
    third: &[u8],
    rights: &mut [u8],
) -> Result<(), RightsFault>
    ensures { (result ≡ read_rights first.now second.now third.now rights.old) × (rights.new ≡ read_rights_into first.now second.now third.now rights.old) }
{
    if rights.len() < 60 {
        return Err(RightsFault::ShortBuffer);
    }
    if let Err(fault) = three_runs(first, second, third, rights) {
        put(rights, 0, &[0; 60]);
        return Err(RightsFault::Faulty(fault));
    }
    Ok(())
}
