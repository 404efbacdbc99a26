// Runs commands in links through the functions for C, and answers each call by a line. Standard input is the cases, one behind the other, each by
// its first byte:
// 1, a card: 60 bytes of certificates, the image's length (4 bytes, little-endian), the image. A session of 1,054 bytes is opened. The line: the
//    refusal's number.
// 2, a command: the length of the response buffer (2 bytes, little-endian), that of the command (2 bytes, little-endian), the command. The line: the
//    refusal's number, the response (`-` where there is none), the first 30 bytes of the session, which are all but those of its chain.
// 3, a cut: how many stores are made (2 bytes, little-endian), the length of the command (2 bytes, little-endian), the command. The line: the
//    refusal's number, how many stores the command has, the first 30 bytes of the session.
// 4, a session: its length (2 bytes, little-endian), how many of its bytes are given (2 bytes, little-endian), these bytes. They and zeros behind
//    them, as many as the length says in all, are the session from now on. There is no line.
// 5, a look at the card: the line is its image.
// 6, a look at the session: the line is all of its bytes.
#![tactic(auto)]

use program_console::cases::{Cases, Stop};
use program_console::result;
use std::alloc::Global;
use std::io::Stdout;
use std::process::ExitCode;
use store_records::little::{read16, read32};

// How many bytes a session has.
const SESSION: usize = 1054;

// How many bytes a session in a case may have: more than one has, so that a longer buffer is lent, too.
const SESSION_ROOM: usize = 2048;

// How many bytes a response buffer may have.
const RESPONSE_ROOM: usize = 4096;

// The program at work: where it writes and where its memory comes from, the card's image and the session that the cases so far have left, and the
// status that it ends with.
#[derive(Drop)]
struct Chain<'s> {
    out: Stdout,
    alloc: Global,
    card: Vec<u8>,
    session: Vec<u8>,
    status: &'s mut ExitCode,
}

// The n bytes that s starts with, all where it has fewer, and what stands behind them: of a case's numbers, bytes past the end count as 0. (test_sample has
// `head_at`, `bytes_at` and `within`, too. A public function of program_console would owe a theorem of one outcome, and there is none for two parts.)
fn head_at(s: &[u8], n: usize) -> (&[u8], &[u8]) {
    s.split_at(n.min(s.len()))
}

// The n bytes that s starts with, and what stands behind them.
fn bytes_at(s: &[u8], n: usize) -> Result<(&[u8], &[u8]), Stop> {
    s.split_at_checked(n).ok_or(Stop::Torn)
}

// A length, where it is no more than a case may ask for.
fn within(n: usize, most: usize) -> Result<usize, Stop> {
    if most < n { Err(Stop::Torn) } else { Ok(n) }
}

// Each function here that answers a case is given what stands behind the case's first byte and gives what stands behind the case.
impl Chain<'_> {
    // A card.
    fn start<'a>(&mut self, s: &'a [u8]) -> Result<&'a [u8], Stop> {
        let (head, s) = head_at(s, 64);
        let (image, rest) = bytes_at(s, read32(head, 60))?;
        self.card = Vec::from_slice(self.alloc, image)?;
        self.session = vec![in self.alloc; 0; SESSION]?;
        let r = malquindo::malquindo_open(base::part(head, 0, 60), &mut self.session);
        program_console::number(self.out, result::refusal(r));
        program_console::end(self.out);
        Ok(rest)
    }

    // Writes the end of a line: a session but for the bytes of its chain.
    fn tell(&self) {
        program_console::bytes(self.out, base::part(&self.session, 0, 30));
        program_console::end(self.out);
    }

    // A command.
    fn command<'a>(&mut self, s: &'a [u8]) -> Result<&'a [u8], Stop> {
        let (head, s) = head_at(s, 4);
        let (command, rest) = bytes_at(s, read16(head, 2))?;
        let room = within(read16(head, 0), RESPONSE_ROOM)?;
        let mut response = vec![in self.alloc; 0; room]?;
        let r = malquindo::malquindo_command(
            &mut self.card,
            &mut self.session,
            command,
            &mut response,
        );
        program_console::number(self.out, result::refusal(r));
        program_console::bytes(self.out, base::part(&response, 0, result::length(r)));
        self.tell();
        Ok(rest)
    }

    // A cut.
    fn cut<'a>(&mut self, s: &'a [u8]) -> Result<&'a [u8], Stop> {
        let (head, s) = head_at(s, 4);
        let (command, rest) = bytes_at(s, read16(head, 2))?;
        let r = malquindo::malquindo_cut(&mut self.card, &self.session, command, read16(head, 0));
        program_console::number(self.out, result::refusal(r));
        program_console::field(self.out, result::stores(r));
        self.tell();
        Ok(rest)
    }

    // A session. More bytes than its room has are not stored at all.
    fn session<'a>(&mut self, s: &'a [u8]) -> Result<&'a [u8], Stop> {
        let (head, s) = head_at(s, 4);
        let (given, rest) = bytes_at(s, read16(head, 2))?;
        let n = within(read16(head, 0), SESSION_ROOM)?;
        self.session = vec![in self.alloc; 0; SESSION_ROOM]?;
        base::put(&mut self.session, 0, given);
        self.session.truncate(n);
        Ok(rest)
    }

    // A look, at the card's image or at the session.
    fn look(&self, title: &[u8], seen: &[u8]) {
        program_console::word(self.out, title);
        program_console::bytes(self.out, seen);
        program_console::end(self.out);
    }
}

impl<'a> Cases<'a> for Chain<'_> {
    fn answer(&mut self, s: &'a [u8]) -> Result<&'a [u8], Stop> {
        let (kind, rest) = s.split_first().ok_or(Stop::Torn)?;
        match *kind {
            1 => return self.start(rest),
            2 => return self.command(rest),
            3 => return self.cut(rest),
            4 => return self.session(rest),
            5 => self.look(b"image", &self.card),
            6 => self.look(b"session", &self.session),
            _ => return Err(Stop::Torn),
        }
        Ok(rest)
    }

    fn fail(&mut self) {
        *self.status = ExitCode::FAILURE;
    }
}

fn main(rt: HostRuntime) -> ExitCode {
    let alloc = rt.alloc();
    let mut input = program_console::room();
    let n = program_console::read_full(rt.stdin(), &mut input);
    let mut status = ExitCode::SUCCESS;
    let chain = Chain {
        out: rt.stdout(),
        alloc,
        card: Vec::new(alloc),
        session: Vec::new(alloc),
        status: &mut status,
    };
    program_console::cases::answer_or_warn(rt.stdout(), rt.stderr(), &input[..n], chain);
    status
}
