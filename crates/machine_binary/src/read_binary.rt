// READ BINARY.
ghost use Rattle.std.specs.Prelude.{◌≡◌};
ghost use Rattle.machine_binary.specs.ReadBinary.{p1_fits, read_named, read_offset, read_binary_on, read_binary};

use base::natural::min;
use machine_action::{Action, tests};
use machine_apdu::status::StatusWord;
use machine_apdu::{Frame, status};
use machine_session::resolve::resolve_transparent;
use machine_session::{Named, Session};
use store_files::Transparent;

// P1 with b8 one has b7 and b6 zero.
#[tactic(auto, unfolding(crate::specs::ReadBinary::p1_fits, crate::specs::ReadBinary::names_current))]
pub fn p1_fits(p1: usize) -> bool
    ensures { result ≡ p1_fits p1 }
{
    p1 < 0x80 || p1 / 0x20 == 4
}

#[tactic(auto, unfolding(crate::specs::ReadBinary::read_named, crate::specs::ReadBinary::names_current))]
fn read_named(f: Frame) -> Named
    ensures { result ≡ read_named f }
{
    let p1 = f.header.p1;
    if p1 < 0x80 {
        Named::Current
    } else {
        Named::Short(p1 % 0x20)
    }
}

#[tactic(auto, unfolding(crate::specs::ReadBinary::read_offset, crate::specs::ReadBinary::names_current))]
fn read_offset(f: Frame) -> usize
    ensures { result ≡ read_offset f }
{
    let h = f.header;
    if h.p1 < 0x80 {
        tests::be16(h.p1, h.p2)
    } else {
        h.p2
    }
}

// Step 10.
#[tactic(auto, unfolding(crate::specs::ReadBinary::read_binary_on, machine_session::specs::Order::in_order))]
fn read_binary_on(
    image: &[u8],
    offset: usize,
    ne: usize,
    t: Transparent,
) -> Result<Action, StatusWord>
    ensures { result ≡ read_binary_on image.now offset ne t }
{
    let size = store_files::size(image, t);
    if size <= offset {
        return Err(status::WRONG_OFFSET);
    }
    Ok(Action::ReadBinary(t, offset, min(ne, min(2048, size - offset))))
}

#[tactic(auto, unfolding(crate::specs::ReadBinary::read_binary, machine_session::specs::Order::in_order))]
pub fn read_binary(image: &[u8], s: Session, f: Frame) -> Result<Action, StatusWord>
    ensures { result ≡ read_binary image.now s f }
{
    if !p1_fits(f.header.p1) {
        return Err(status::WRONG_PARAMETERS);
    }
    if !tests::le_only(f) {
        return Err(status::WRONG_LENGTH);
    }
    let t = resolve_transparent(image, s, read_named(f))?;
    read_binary_on(image, read_offset(f), f.ne, t)
}
