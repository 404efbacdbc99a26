// Runs cases through the functions for C, and answers each call by a line. The cases and the lines are made by an independent
// implementation (host/). Standard input is the cases, one behind the other, each by its first byte:
// 1, an image: its length (4 bytes, little-endian), its bytes. It is the card's image from now on.
// 2, a session: its length (2 bytes, little-endian), how many of its bytes are given (2 bytes, little-endian), these bytes. They and zeros behind
//    them, as many as the length says in all, are the session's bytes from now on.
// 3, an opening: the length of the rights (2 bytes, little-endian), the rights. The line: the result, the session.
// 4, a command: the length of the response buffer (2 bytes, little-endian), that of the command (2 bytes, little-endian), the
//    command. The response buffer is filled with A5. The line: the result, the answer (`-` where there is none), the session, a hash of the
//    image, a hash of the response buffer.
// 5, a move: the length of the target (4 bytes, little-endian), that of the list (2 bytes, little-endian), the list. The target is filled
//    with A5. The line: the result, a hash of the target. Without a refusal the card's image is from now on the first bytes of the
//    target, as many as the result says.
// 6, a file: its kind (2 bytes, little-endian). The line: the result, a hash of the part of the card's image that the result tells.
// 7, certificates: the first and the last reference (1 byte each), the length of the card's body (4 bytes, little-endian), its bytes, the
//    length of the desk's body (4 bytes, little-endian), its bytes. A line for each reference from the first to the last: the result, and
//    the certificate that the store's function returns (`-` where there is none).
// 8, an index: what is asked (1 byte: 0 to build, 1 to extend, 2 to read), the kind (2 bytes, little-endian), the first and the last number
//    (8 bytes each, little-endian), how many entries the list has (2 bytes, little-endian), the entries (4 bytes each, little-endian), the length of
//    the body (4 bytes, little-endian), its bytes. To extend, the first number is how many places the list holds. The line, where it is built or
//    extended: the result, a hash of the list. Where it is read, a line for each number from the first to the last: the result, and the
//    record that the store's function returns (`-` where that has no byte).
// 9, a stamp: how many entries the list has (2 bytes, little-endian), the length of the record (4 bytes, little-endian), its bytes. The list is
//    filled with A5A5A5A5. The line: the result, a hash of the list.
// 10, rights of certificates: the length of the buffer (2 bytes, little-endian), then of each of three runs the length (4 bytes,
//    little-endian) and its bytes. The buffer is filled with A5. The line: the result, the buffer's bytes.
// 11, a cut: how many stores are made (8 bytes, little-endian), the length of the command (2 bytes, little-endian), the command. The line: the
//    result, a hash of the image. The card's image is from now on what the cut left; the session stays.
// Of a session a line has the first 30 bytes (`-` where there are none) and a hash of all.
#![tactic(auto)]

ghost use Rattle.std.specs.Prelude.{◌≡◌, ◌≤◌, IfOk, replicate};

use program_console::cases::{Cases, Stop};
use program_console::result;
use std::alloc::Global;
use std::io::Stdout;
use std::process::ExitCode;
use store_records::little::{read16, read32};

// How many bytes a case may have or ask for: of an image, of a session, of a response or rights, of a target; and how many entries of a list. An image
// may be longer than the largest has, and a session's buffer than a session.
const IMAGE_ROOM: usize = 524288;

const SESSION_ROOM: usize = 2048;

const RESPONSE_ROOM: usize = 4096;

const TARGET_ROOM: usize = 262144;

const LIST_ROOM: usize = 512;

// The program at work: where it writes and where its memory comes from, the card's image and the session that the cases so far have left, and the
// status that it ends with.
#[derive(Drop)]
struct Sample<'s> {
    out: Stdout,
    alloc: Global,
    card: Vec<u8>,
    session: Vec<u8>,
    status: &'s mut ExitCode,
}

// FNV-1a in 32 bits: the hash of no byte, and the hash h, continued by a byte.
const FIRST_HASH: u32 = 2166136261;

fn hash_byte(h: u32, byte: u8) -> u32 {
    (h ^ u32::from(byte)).wrapping_mul(16777619)
}

// Writes a space and the hash of bytes.
fn tell_hash(out: Stdout, s: &[u8]) {
    let h = s.iter().copied().fold(FIRST_HASH, hash_byte);
    program_console::word(out, b" ");
    program_console::number(out, u64::from(h));
}

// The n bytes that s starts with, all where it has fewer, and what stands behind them: of a case's numbers, bytes past the end count as 0. (test_chain has
// `head_at`, `bytes_at` and `within`, too. A public function of program_console would owe a theorem of one outcome, and there is none for two parts.)
fn head_at(s: &[u8], n: usize) -> (&[u8], &[u8]) {
    s.split_at(n.min(s.len()))
}

// The n bytes that s starts with, and what stands behind them.
fn bytes_at(s: &[u8], n: usize) -> Result<(&[u8], &[u8]), Stop> {
    s.split_at_checked(n).ok_or(Stop::Torn)
}

// A run, with its length before it, and what stands behind it.
fn run_at(s: &[u8]) -> Result<(&[u8], &[u8]), Stop> {
    let (head, s) = bytes_at(s, 4)?;
    bytes_at(s, read32(head, 0))
}

// A length, where it is no more than a case may have or ask for.
fn within(n: usize, most: usize) -> Result<usize, Stop>
    ensures { IfOk result (λ k. k ≤ most) }
{
    if most < n { Err(Stop::Torn) } else { Ok(n) }
}

// The line of a certificate.
fn tell_certificate<'a>(out: Stdout, card: &'a [u8], desk: &'a [u8], reference: u8) {
    program_console::number(out, malquindo::malquindo_certificate(card, desk, reference));
    program_console::bytes(
        out,
        store_certificates::named_certificate(card, desk, reference),
    );
    program_console::end(out);
}

// Certificates: a line for each reference from the first to the last.
fn certificates(out: Stdout, s: &[u8]) -> Result<&[u8], Stop> {
    let (references, s) = s.split_first_chunk::<2>().ok_or(Stop::Torn)?;
    let [first, last] = *references;
    let (card, s) = run_at(s)?;
    let (desk, rest) = run_at(s)?;
    for reference in first..=last {
        tell_certificate(out, card, desk, reference);
    }
    Ok(rest)
}

// The number of 8 bytes that s starts with, and what stands behind it.
fn number_at(s: &[u8]) -> Result<(usize, &[u8]), Stop> {
    let (number, rest) = s.split_first_chunk().ok_or(Stop::Torn)?;
    Ok((usize::from_le_bytes(*number), rest))
}

// The line of a list that is built, extended or filled: the result, and the hash of the list's bytes.
fn tell_places(out: Stdout, r: u64, places: &[u32]) {
    program_console::number(out, r);
    program_console::word(out, b" ");
    let h = places
        .iter()
        .flat_map(|p| p.to_le_bytes())
        .fold(FIRST_HASH, hash_byte);
    program_console::number(out, u64::from(h));
    program_console::end(out);
}

// The line of a record that is read.
fn tell_record(out: Stdout, body: &[u8], places: &[u32], number: usize) {
    program_console::number(out, malquindo::malquindo_index_read(body, places, number));
    program_console::bytes(out, store_index::read(body, places, number));
    program_console::end(out);
}

// What an index is asked: `asked` says what, the numbers from the first to the last are read.
fn ask_index(
    out: Stdout,
    asked: u8,
    kind: u16,
    (first, last): (usize, usize),
    body: &[u8],
    places: &mut [u32],
) {
    match asked {
        0 => {
            let r = malquindo::malquindo_index_build(kind, body, places);
            tell_places(out, r, places);
        }
        1 => {
            let r = malquindo::malquindo_index_extend(kind, body, places, first);
            tell_places(out, r, places);
        }
        _ => {
            for n in first..=last {
                tell_record(out, body, places, n);
            }
        }
    }
}

// An index.
fn index<'a>(out: Stdout, alloc: Global, s: &'a [u8]) -> Result<&'a [u8], Stop> {
    let (asked, s) = s.split_first().ok_or(Stop::Torn)?;
    let (kind, s) = s.split_first_chunk().ok_or(Stop::Torn)?;
    let (first, s) = number_at(s)?;
    let (last, s) = number_at(s)?;
    let (count, s) = bytes_at(s, 2)?;
    let (list, s) = bytes_at(s, 4 * within(read16(count, 0), LIST_ROOM)?)?;
    let (body, rest) = run_at(s)?;
    let (entries, _) = list.as_chunks();
    let mut places = entries
        .iter()
        .map(|entry| u32::from_le_bytes(*entry))
        .collect::<Vec<u32>>(alloc)?;
    let kind = u16::from_le_bytes(*kind);
    ask_index(out, *asked, kind, (first, last), body, &mut places);
    Ok(rest)
}

// A stamp.
fn stamp<'a>(out: Stdout, alloc: Global, s: &'a [u8]) -> Result<&'a [u8], Stop> {
    let (count, s) = bytes_at(s, 2)?;
    let (record, rest) = run_at(s)?;
    let entries = within(read16(count, 0), LIST_ROOM)?;
    let mut places = vec![in alloc; 0xA5A5A5A5; entries]?;
    let r = malquindo::malquindo_stamp_read(record, &mut places);
    tell_places(out, r, &places);
    Ok(rest)
}

// The rights of certificates.
fn rights<'a>(out: Stdout, alloc: Global, s: &'a [u8]) -> Result<&'a [u8], Stop> {
    let (length, s) = bytes_at(s, 2)?;
    let (first, s) = run_at(s)?;
    let (second, s) = run_at(s)?;
    let (third, rest) = run_at(s)?;
    let room = within(read16(length, 0), RESPONSE_ROOM)?;
    let mut buffer = vec![in alloc; 0xA5; room]?;
    program_console::number(
        out,
        malquindo::malquindo_rights(first, second, third, &mut buffer),
    );
    program_console::bytes(out, &buffer);
    program_console::end(out);
    Ok(rest)
}

// Each function here that answers a case is given what stands behind the case's first byte and gives what stands behind the case.
impl Sample<'_> {
    // A new image.
    fn image<'a>(&mut self, s: &'a [u8]) -> Result<&'a [u8], Stop> {
        let (head, s) = head_at(s, 4);
        let (image, rest) = bytes_at(s, within(read32(head, 0), IMAGE_ROOM)?)?;
        self.card = Vec::from_slice(self.alloc, image)?;
        Ok(rest)
    }

    // New session bytes: those that are given, and zeros behind them.
    fn session<'a>(&mut self, s: &'a [u8]) -> Result<&'a [u8], Stop> {
        let (head, s) = head_at(s, 4);
        let n = within(read16(head, 0), SESSION_ROOM)?;
        let (given, rest) = bytes_at(s, within(read16(head, 2), n)?)?;
        self.session = vec![in self.alloc; 0; n]?;
        base::put(&mut self.session, 0, given);
        Ok(rest)
    }

    // Writes a session: most of its bytes are zeros, so the first ones and a hash tell it.
    fn tell_session(&self) {
        program_console::bytes(self.out, base::part(&self.session, 0, 30));
        tell_hash(self.out, &self.session);
    }

    // An opening.
    fn opening<'a>(&mut self, s: &'a [u8]) -> Result<&'a [u8], Stop> {
        let (head, s) = head_at(s, 2);
        let (rights, rest) = bytes_at(s, read16(head, 0))?;
        program_console::number(
            self.out,
            malquindo::malquindo_open(rights, &mut self.session),
        );
        self.tell_session();
        program_console::end(self.out);
        Ok(rest)
    }

    // A command.
    fn command<'a>(&mut self, s: &'a [u8]) -> Result<&'a [u8], Stop> {
        let (head, s) = head_at(s, 4);
        let (command, rest) = bytes_at(s, read16(head, 2))?;
        let room = within(read16(head, 0), RESPONSE_ROOM)?;
        let mut response = vec![in self.alloc; 0xA5; room]?;
        let r = malquindo::malquindo_command(
            &mut self.card,
            &mut self.session,
            command,
            &mut response,
        );
        program_console::number(self.out, r);
        program_console::bytes(self.out, base::part(&response, 0, result::length(r)));
        self.tell_session();
        tell_hash(self.out, &self.card);
        tell_hash(self.out, &response);
        program_console::end(self.out);
        Ok(rest)
    }

    // A move.
    fn moved<'a>(&mut self, s: &'a [u8]) -> Result<&'a [u8], Stop> {
        let (head, s) = head_at(s, 6);
        let (list, rest) = bytes_at(s, read16(head, 4))?;
        let room = within(read32(head, 0), TARGET_ROOM)?;
        let mut target = vec![in self.alloc; 0xA5; room]?;
        let r = malquindo::malquindo_move(&self.card, list, &mut target);
        program_console::number(self.out, r);
        tell_hash(self.out, &target);
        program_console::end(self.out);
        if result::refusal(r) == 0 {
            target.truncate(result::moved_length(r));
            self.card = target;
        }
        Ok(rest)
    }

    // A file.
    fn file<'a>(&self, s: &'a [u8]) -> Result<&'a [u8], Stop> {
        let (kind, rest) = s.split_first_chunk().ok_or(Stop::Torn)?;
        let r = malquindo::malquindo_file(&self.card, u16::from_le_bytes(*kind));
        program_console::number(self.out, r);
        tell_hash(
            self.out,
            base::part(&self.card, result::file_place(r), result::file_length(r)),
        );
        program_console::end(self.out);
        Ok(rest)
    }

    // A cut.
    fn cut<'a>(&mut self, s: &'a [u8]) -> Result<&'a [u8], Stop> {
        let (head, s) = head_at(s, 10);
        let (command, rest) = bytes_at(s, read16(head, 8))?;
        let stores = read32(head, 0) + 4294967296 * read32(head, 4);
        program_console::number(
            self.out,
            malquindo::malquindo_cut(&mut self.card, &self.session, command, stores),
        );
        tell_hash(self.out, &self.card);
        program_console::end(self.out);
        Ok(rest)
    }
}

impl<'a> Cases<'a> for Sample<'_> {
    fn answer(&mut self, s: &'a [u8]) -> Result<&'a [u8], Stop> {
        let (kind, rest) = s.split_first().ok_or(Stop::Torn)?;
        match *kind {
            1 => self.image(rest),
            2 => self.session(rest),
            3 => self.opening(rest),
            4 => self.command(rest),
            5 => self.moved(rest),
            6 => self.file(rest),
            7 => certificates(self.out, rest),
            8 => index(self.out, self.alloc, rest),
            9 => stamp(self.out, self.alloc, rest),
            10 => rights(self.out, self.alloc, rest),
            11 => self.cut(rest),
            _ => Err(Stop::Torn),
        }
    }

    fn fail(&mut self) {
        *self.status = ExitCode::FAILURE;
    }
}

// Room for all input: the sample is longer than the room that programs share.
fn input_room() -> [u8; 786432]
    ensures { result ≡ replicate 786432 0 }
{
    [0; 786432]
}

fn main(rt: HostRuntime) -> ExitCode {
    let alloc = rt.alloc();
    let mut input = input_room();
    let n = program_console::read_full(rt.stdin(), &mut input);
    let mut status = ExitCode::SUCCESS;
    let sample = Sample {
        out: rt.stdout(),
        alloc,
        card: Vec::new(alloc),
        session: Vec::new(alloc),
        status: &mut status,
    };
    program_console::cases::answer_or_warn(rt.stdout(), rt.stderr(), &input[..n], sample);
    status
}
