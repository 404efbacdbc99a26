// Bytes that are lent: one read, a part of them, a run of them stored. Every place and every length is allowed.
#![tactic(auto)]

pub mod natural;

ghost use Rattle.std.specs.Prelude.{◌≡◌, ◌+◌, ◌≤◌, ◌<◌, length, get_or};
ghost use Rattle.std.proofs.lemmas.List.Edits.{sets};
ghost use Rattle.base.specs.Bytes.{part as part_of, same_bytes, put_fits as fits_at, put as put_at};
ghost use Rattle.base.specs.Lent.{WholePart};

// The byte at i, and 0 past the end.
pub fn byte(s: &[u8], i: usize) -> usize
    ensures { (result ≡ get_or s.now i 0) × (result < 256) }
{
    if i < s.len() { usize::from(s[i]) } else { 0 }
}

// The n bytes from `a` on, as the part of s that they are, cut at its end.
pub fn part(s: &[u8], a: usize, n: usize) -> &[u8]
    ensures { result.now ≡ part_of s.now a n }
{
    let rest = &s[a.min(s.len())..];
    &rest[..n.min(rest.len())]
}

// The n bytes from `a` on, as that very part of s, and whole; the empty part at its start where s has not all of them.
#[tactic(auto, unfolding(crate::specs::Lent::whole_fits))]
pub fn whole_part(s: &[u8], a: usize, n: usize) -> &[u8]
    ensures { WholePart s.entry a n result }
{
    if s.len() < a || s.len() - a < n {
        &s[0..0]
    } else {
        &s[a..a + n]
    }
}

// Whether x and y are the same bytes.
pub fn same_bytes(x: &[u8], y: &[u8]) -> bool
    ensures { result ≡ same_bytes x.now y.now }
{
    x == y
}

// Copies src into dst from `at` on, one byte after the other. (No `copy_from_slice`: it leaves the order of the stores open, and those of a
// record have one.)
fn copy_in(dst: &mut [u8], at: usize, src: &[u8])
    requires { at + length src.now ≤ length dst.old }
    ensures { dst.new ≡ sets dst.old at src.now }
{
    for (i, byte) in src.iter().enumerate() {
        dst[at + i] = *byte;
    }
}

// Stores src in dst from `at` on, where all of it fits; else it stores nothing. Answers whether it fitted.
#[tactic(auto, unfolding(crate::specs::Bytes::put_fits, crate::specs::Bytes::put))]
pub fn put(dst: &mut [u8], at: usize, src: &[u8]) -> bool
    ensures { (result ≡ fits_at dst.old at src.now) × (dst.new ≡ put_at dst.old at src.now) }
{
    if dst.len() < at || dst.len() - at < src.len() {
        return false;
    }
    copy_in(dst, at, src);
    true
}
