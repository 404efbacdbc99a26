// The start of an object: its tag, and its length in the one form that there is for it.
ghost use Rattle.std.specs.Prelude.{◌≡◌, ◌≤◌, length, drop};
ghost use Rattle.objects_reader.specs.Head.{body_in, length_of, head_of, past_by};

// What is missing at the start of a part: the wanted tag, or a length that fits.
#[derive(Clone, Copy)]
pub enum HeadFault {
    NoTag,
    NoLength,
}

// What stands at the start of a part: an object of the wanted tag whose value is the len bytes from start on, as (start, len); or the fault.
pub type Head = Result<(usize, usize), HeadFault>;

// A value of n bytes, at least `least`, behind k bytes of s.
fn body_in(s: &[u8], k: usize, least: usize, n: usize) -> Head
    requires { k ≤ length s.now }
    ensures { result ≡ body_in s.now k least n }
{
    if least <= n && n <= s.len() - k {
        Ok((k, n))
    } else {
        Err(HeadFault::NoLength)
    }
}

// The length field at the start of s, with the value's bytes behind it.
#[tactic(auto, unfolding(crate::specs::Head::length_of))]
pub fn length_at(s: &[u8]) -> Head
    ensures { result ≡ length_of s.now }
{
    match s {
        [b, ..] if *b < 0x80 => body_in(s, 1, 0, usize::from(*b)),
        [0x81, n, ..] => body_in(s, 2, 0x80, usize::from(*n)),
        [0x82, high, low, ..] => {
            body_in(s, 3, 0x100, usize::from(*high) * 256 + usize::from(*low))
        }
        _ => Err(HeadFault::NoLength),
    }
}

// The object whose length field stands behind k bytes of s.
fn past(s: &[u8], k: usize) -> Head
    requires { (k ≤ 2) × (k ≤ length s.now) }
    ensures { result ≡ past_by k (length_of (drop k s.now)) }
{
    let (start, len) = length_at(&s[k..])?;
    Ok((k + start, len))
}

// The object with this tag at the start of s.
#[tactic(auto, unfolding(crate::specs::Head::head_of))]
pub fn header(s: &[u8], tag: u16) -> Head
    ensures { result ≡ head_of tag s.now }
{
    match s {
        [one, ..] if tag < 0x100 && u16::from(*one) == tag => past(s, 1),
        [high, low, ..] if 0x100 <= tag && u16::from_be_bytes([*high, *low]) == tag => past(s, 2),
        _ => Err(HeadFault::NoTag),
    }
}
