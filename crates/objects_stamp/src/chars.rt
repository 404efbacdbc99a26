// The characters of a stamp's fields, by the note of Table 11 of the ICAO report.
ghost use Rattle.std.specs.Prelude.{◌≡◌};
ghost use Rattle.objects_stamp.specs.Chars.{between, is_letter, is_digit, is_special, allows, allows_all};

// Which bytes a field may have: letters; digits; letters, digits and special characters; any; the number of a record.
#[derive(Clone, Copy)]
pub enum Chars {
    Letters,
    Digits,
    Text,
    Binary,
    Reference,
}

fn between(lo: u8, hi: u8, b: u8) -> bool
    ensures { result ≡ between lo hi b }
{
    lo <= b && b <= hi
}

#[tactic(auto, unfolding(crate::specs::Chars::is_letter))]
fn letter(b: u8) -> bool
    ensures { result ≡ is_letter b }
{
    between(b'A', b'Z', b) || between(b'a', b'z', b)
}

#[tactic(auto, unfolding(crate::specs::Chars::is_digit))]
fn digit(b: u8) -> bool
    ensures { result ≡ is_digit b }
{
    between(b'0', b'9', b)
}

#[tactic(auto, unfolding(crate::specs::Chars::is_special))]
fn special(b: u8) -> bool
    ensures { result ≡ is_special b }
{
    b == b'<' || b == b' '
}

fn allows(c: Chars, b: u8) -> bool
    ensures { result ≡ allows c b }
{
    match c {
        Chars::Letters => letter(b),
        Chars::Digits => digit(b),
        Chars::Text => letter(b) || digit(b) || special(b),
        Chars::Binary => true,
        Chars::Reference => between(0x01, 0xFE, b),
    }
}

// Whether each byte of v is one of these.
pub fn allows_all(c: Chars, v: &[u8]) -> bool
    ensures { result ≡ allows_all c v.now }
{
    v.iter().all(|b| allows(c, *b))
}
