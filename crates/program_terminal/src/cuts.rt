// A command that is cut: `cut K COMMAND`. The card is then what it is where the power goes behind the first K of the command's stores. K is in
// decimal, the command in hexadecimal.
use crate::lines::How;
use crate::status::Fault;
use crate::text::Words;
use crate::{hex, keep, status};
use program_console::result;
use std::io::Stdout;

// Says how many stores were made, of how many that the command has.
fn tell(out: Stdout, stores: usize, all: usize) {
    if all == 0 {
        program_console::word(out, b"= no stores: nothing is changed\n");
        return;
    }
    program_console::word(out, b"= stores made: ");
    program_console::number(out, stores.min(all) as u64);
    program_console::word(out, b" of ");
    program_console::number(out, all as u64);
    program_console::end(out);
}

// Cuts a command, keeps what it changed, and then says how many stores were made. The session is only read.
fn send(
    command: &[u8],
    stores: usize,
    image: &mut [u8],
    kept: &mut [u8],
    session: &[u8],
    how: How,
) -> Result<(), Fault> {
    let r = malquindo::malquindo_cut(image, session, command, stores);
    keep::change(how.err, how.file, kept, image)?;
    status::accepted(how.err, r)?;
    tell(how.out, stores, result::stores(r));
    Ok(())
}

// A cut's line, behind its first word.
pub(crate) fn line(
    mut words: Words,
    image: &mut [u8],
    kept: &mut [u8],
    session: &[u8],
    how: How,
) -> Result<(), Fault> {
    let stores = words
        .next()
        .and_then(|word| hex::number(word, hex::Written::Decimal));
    let mut bytes = program_console::buffer();
    let command = hex::decode(words.rest, &mut bytes);
    match (stores, command) {
        (Some(stores), Some(command)) if !command.is_empty() => {
            send(command, stores, image, kept, session, how)
        }
        _ => Err(Fault::Unread),
    }
}
