// A chain: a command's data that comes in several links. The session holds what came before the last link, and the terminal says so, since the
// answer to a link is the same as that to a whole command.
use std::io::Stdout;
use store_records::little::read16;

// How many bytes an open chain has so far; 0 where no chain is open.
pub(crate) fn so_far(session: &[u8]) -> usize {
    read16(session, 25)
}

// Writes how many bytes these are.
fn amount(out: Stdout, n: usize) {
    program_console::word(out, b" open, bytes so far:");
    program_console::field(out, n);
}

// Writes, in the line of a session, which chain is open: its INS, P1 and P2, which the next link must have, too.
pub(crate) fn name(out: Stdout, session: &[u8]) {
    let n = so_far(session);
    if n == 0 {
        return;
    }
    program_console::word(out, b", chain of");
    program_console::spell(out, base::part(session, 27, 3));
    amount(out, n);
}

// Writes a line where a chain is open behind a command, and where the command's status dropped the chain that was open `before`.
pub(crate) fn tell(out: Stdout, before: usize, status: u64, session: &[u8]) {
    let n = so_far(session);
    if 0 < n {
        program_console::word(out, b"= chain");
        amount(out, n);
        program_console::end(out);
        return;
    }
    if 0 < before && status != 0x9000 {
        program_console::word(out, b"= chain dropped\n");
    }
}
