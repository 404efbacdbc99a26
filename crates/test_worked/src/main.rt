// Runs the card to try through the command machine, and answers each call by a line. Standard input is the cases, one
// behind the other, each by its first byte:
// 1, a new card: 60 bytes of certificates, the image's length (4 bytes, little-endian), the image. It is copied,
//    and a session without a chain is opened. The line: the refusal's number.
// 2, a command: its length (2 bytes, little-endian), its bytes. It is run on the card, with the session that the call before
//    answered, the chain that it left, and a response buffer of 2,050 bytes. The line: the refusal's number, the response (`-`
//    where there is none).
// 3, a look: the line is the card's image.
#![tactic(auto)]

use machine_session::{Refusal, Session};
use program_console::cases::{Cases, Stop};
use std::alloc::Global;
use std::io::Stdout;
use std::process::ExitCode;
use store_records::little::{read16, read32};

// The program at work: where it writes and where its memory comes from, the card's image, the session and the chain that the cases so far have left,
// and the status that it ends with.
#[derive(Drop)]
struct Worked<'s> {
    out: Stdout,
    alloc: Global,
    card: Vec<u8>,
    session: Session,
    chain: [u8; machine_chain::LENGTH],
    status: &'s mut ExitCode,
}

// The number of a verdict: 0 where the call is accepted, and else that of the refusal.
fn number(v: Result<(), Refusal>) -> u64 {
    match v {
        Ok(()) => 0,
        Err(Refusal::ShortBuffer) => 1,
        Err(Refusal::BadImage) => 2,
        Err(Refusal::BadRights) => 3,
        Err(Refusal::BadSession) => 4,
    }
}

// The n bytes that s starts with, and what stands behind them.
fn bytes_at(s: &[u8], n: usize) -> Result<(&[u8], &[u8]), Stop> {
    s.split_at_checked(n).ok_or(Stop::Torn)
}

// Each function here that answers a case is given what stands behind the case's first byte and gives what stands behind the case.
impl Worked<'_> {
    // A new card.
    fn start<'a>(&mut self, s: &'a [u8]) -> Result<&'a [u8], Stop> {
        let (head, s) = bytes_at(s, 64)?;
        let (image, rest) = bytes_at(s, read32(head, 60))?;
        self.card = Vec::from_slice(self.alloc, image)?;
        machine_chain::end(&mut self.chain);
        let a = machine::open(base::part(head, 0, 60));
        program_console::number(self.out, number(a.verdict));
        program_console::end(self.out);
        self.session = a.session;
        Ok(rest)
    }

    // A command.
    fn command<'a>(&mut self, s: &'a [u8]) -> Result<&'a [u8], Stop> {
        let (head, s) = bytes_at(s, 2)?;
        let (command, rest) = bytes_at(s, read16(head, 0))?;
        let mut response = [0; 2050];
        let a = machine::command(
            &mut self.card,
            self.session,
            &mut self.chain,
            command,
            &mut response,
        );
        program_console::number(self.out, number(a.verdict));
        program_console::bytes(self.out, base::part(&response, 0, a.length));
        program_console::end(self.out);
        self.session = a.session;
        Ok(rest)
    }

    // The card's image.
    fn look(&self) {
        program_console::word(self.out, b"image");
        program_console::bytes(self.out, &self.card);
        program_console::end(self.out);
    }
}

impl<'a> Cases<'a> for Worked<'_> {
    fn answer(&mut self, s: &'a [u8]) -> Result<&'a [u8], Stop> {
        let (kind, rest) = s.split_first().ok_or(Stop::Torn)?;
        match *kind {
            1 => return self.start(rest),
            2 => return self.command(rest),
            3 => self.look(),
            _ => return Err(Stop::Torn),
        }
        Ok(rest)
    }

    fn fail(&mut self) {
        *self.status = ExitCode::FAILURE;
    }
}

fn main(rt: HostRuntime) -> ExitCode {
    let alloc = rt.alloc();
    let mut input = program_console::room();
    let n = program_console::read_full(rt.stdin(), &mut input);
    let mut status = ExitCode::SUCCESS;
    let worked = Worked {
        out: rt.stdout(),
        alloc,
        card: Vec::new(alloc),
        session: machine_session::open(&[0; 60]),
        chain: [0; machine_chain::LENGTH],
        status: &mut status,
    };
    program_console::cases::answer_or_warn(rt.stdout(), rt.stderr(), &input[..n], worked);
    status
}
