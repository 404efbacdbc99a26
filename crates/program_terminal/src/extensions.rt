// The extensions of three certificates: `certificates RUN RUN RUN` opens a session with the rights that they give. A run is one word in
// hexadecimal, or `-` where a certificate has no extensions.
use crate::lines::How;
use crate::status::Fault;
use crate::text::Words;
use crate::{hex, rights, status};

// Opens a session with what three runs give, and says what it may do. Where they are refused, that is 60 zeros: a session without rights.
fn open(
    how: How,
    first: &[u8],
    second: &[u8],
    third: &[u8],
    session: &mut [u8],
) -> Result<(), Fault> {
    let mut chain = [0; 60];
    let r = malquindo::malquindo_rights(first, second, third, &mut chain);
    let o = malquindo::malquindo_open(&chain, session);
    status::accepted(how.err, r)?;
    status::accepted(how.err, o)?;
    program_console::word(how.out, b"= session opened\n");
    rights::tell(how.out, session);
    Ok(())
}

// The bytes of a run, put at the start of `out`.
fn decode<'a>(word: &[u8], out: &'a mut [u8]) -> Result<&'a [u8], Fault> {
    if matches!(word, b"-") {
        return Ok(&[]);
    }
    hex::decode(word, out).ok_or(Fault::Unread)
}

// Opens a session with three words, where each is a run.
fn open_words(
    first: &[u8],
    second: &[u8],
    third: &[u8],
    session: &mut [u8],
    how: How,
) -> Result<(), Fault> {
    let mut a = program_console::large_buffer();
    let mut b = program_console::large_buffer();
    let mut c = program_console::large_buffer();
    let first = decode(first, &mut a)?;
    let second = decode(second, &mut b)?;
    let third = decode(third, &mut c)?;
    open(how, first, second, third, session)
}

// The line of three certificates, behind its first word.
pub(crate) fn line(mut words: Words, session: &mut [u8], how: How) -> Result<(), Fault> {
    let runs = (words.next(), words.next(), words.next(), words.next());
    let (Some(first), Some(second), Some(third), None) = runs else {
        return Err(Fault::Unread);
    };
    open_words(first, second, third, session, how)
}
