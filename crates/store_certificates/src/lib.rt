// The certificate that a stamp names by its record number: of the card's body of travel certificates or, where that has no such record, of the
// desk's own copy of such a body. It is returned as the very part of the body that it is. Every function takes any bytes.
#![tactic(auto)]

ghost use Rattle.std.specs.Prelude.{◌≡◌, true};
ghost use Rattle.store_certificates.specs.Certificates.{certificates_ok, has_number, stretch_of, located, CertificatePart};

use store_kinds::rules::kind_ok;
use store_records::body;
use store_records::little::read16;

// Where a certificate stands in its body: its first byte, and how many bytes it has.
#[derive(Clone, Copy)]
pub struct Stretch {
    pub start: usize,
    pub length: usize,
}

// In which of the two bodies the certificate is, and where; that it is in neither; or that one of the two is no body of travel certificates.
// (Four cases that a Result of an Option would name no better.)
#[derive(Clone, Copy)]
pub enum Located {
    Card(Stretch),
    Desk(Stretch),
    Missing,
    Refused,
}

// Whether a body is one of travel certificates.
#[tactic(auto, unfolding(crate::specs::Certificates::certificates_ok))]
fn certificates_ok(body: &[u8]) -> bool
    ensures { result ≡ certificates_ok body.now }
{
    kind_ok(0x011A, body)
}

// Whether a body has a record of that number.
#[tactic(auto, unfolding(crate::specs::Certificates::has_number, base::specs::Choice::all_of))]
fn has_number(body: &[u8], n: usize) -> bool
    ensures { result ≡ has_number body.now n }
{
    1 <= n && n <= body::count(body)
}

// Where record n of a body stands, behind its length.
#[tactic(auto, unfolding(crate::specs::Certificates::has_number, base::specs::Choice::all_of))]
fn stretch_of(body: &[u8], n: usize) -> Stretch
    requires { (certificates_ok body.now ≡ true) × (has_number body.now n ≡ true) }
    ensures { result ≡ stretch_of body.now n }
{
    let at = body::place(body, n - 1);
    Stretch {
        start: at + 2,
        length: read16(body, at),
    }
}

// Which of the two bodies has the certificate, and where. Both are looked at before the number is.
#[tactic(auto, unfolding(crate::specs::Certificates::located, base::specs::Choice::all_of))]
pub fn locate(card: &[u8], desk: &[u8], reference: u8) -> Located
    ensures { result ≡ located card.now desk.now reference }
{
    let n = usize::from(reference);
    if !certificates_ok(card) || !certificates_ok(desk) {
        Located::Refused
    } else if has_number(card, n) {
        Located::Card(stretch_of(card, n))
    } else if has_number(desk, n) {
        Located::Desk(stretch_of(desk, n))
    } else {
        Located::Missing
    }
}

// The certificate, as the part of the card's body or of the desk's body that it is; an empty part where it is missing or refused.
#[tactic(auto, unfolding(crate::specs::Certificates::located, base::specs::Choice::all_of))]
pub fn named_certificate<'a>(card: &'a [u8], desk: &'a [u8], reference: u8) -> &'a [u8]
    ensures { CertificatePart (located card.now desk.now reference) reference card.entry desk.entry result }
{
    match locate(card, desk, reference) {
        Located::Card(s) => base::whole_part(card, s.start, s.length),
        Located::Desk(s) => base::whole_part(desk, s.start, s.length),
        Located::Missing => base::whole_part(card, 0, 0),
        Located::Refused => base::whole_part(card, 0, 0),
    }
}
