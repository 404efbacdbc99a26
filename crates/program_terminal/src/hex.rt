// Numbers and bytes in digits, as a line has them. Hexadecimal may have spaces anywhere between its digits.
ghost use Rattle.std.specs.Prelude.{◌≤◌};

use crate::status::Fault;
use crate::text;
use crate::text::Words;

// The bytes that s is in hexadecimal, put at the start of `out`; none where something is no digit or a byte lacks its second one, or where there
// is no room.
pub(crate) fn decode<'a>(s: &[u8], out: &'a mut [u8]) -> Option<&'a [u8]> {
    let mut n = 0;
    let mut first = None;
    for c in s.iter().filter(|c| !text::is_space(c)) {
        let digit = char::from(*c).to_digit(16)?;
        match first {
            None => first = Some(digit),
            Some(high) => {
                *out.get_mut(n)? = ((high << 4 | digit) % 256) as u8;
                n += 1;
                first = None;
            }
        }
    }
    match first {
        None => out.get(..n),
        Some(_) => None,
    }
}

// How a number is written.
#[derive(Clone, Copy)]
pub(crate) enum Written {
    Decimal,
    Hexadecimal,
}

// The number that a word is; none where it is none, or where it has more than 64 bits.
pub(crate) fn number(word: &[u8], written: Written) -> Option<usize> {
    if word.is_empty() {
        return None;
    }
    let radix = match written {
        Written::Decimal => 10u32,
        Written::Hexadecimal => 16,
    };
    let mut number = 0usize;
    for c in word {
        let digit = char::from(*c).to_digit(radix)?;
        number = number
            .checked_mul(radix as usize)?
            .checked_add(digit as usize)?;
    }
    Some(number)
}

// The number of 8 bits that the next word of a line is in hexadecimal.
pub(crate) fn byte(words: &mut Words) -> Result<u8, Fault> {
    let Some(word) = words.next() else {
        return Err(Fault::Unread);
    };
    number(word, Written::Hexadecimal)
        .and_then(|n| u8::try_from(n).ok())
        .ok_or(Fault::Unread)
}
