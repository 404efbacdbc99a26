// READ BINARY with the odd INS, B1: the offset stands in the data, and the reply is an object.
ghost use Rattle.std.specs.Prelude.{◌≡◌};
ghost use Rattle.machine_binary.specs.ReadBinaryOdd.{read_odd_on, read_odd_by, read_binary_odd};

use base::natural::min;
use machine_action::{Action, tests};
use machine_apdu::status::StatusWord;
use machine_apdu::{Frame, status};
use machine_session::Session;
use machine_session::resolve::resolve_transparent;
use store_files::Transparent;

// Step 10. (Three bytes are the shortest reply with a byte of the file in it.)
#[tactic(auto, unfolding(crate::specs::ReadBinaryOdd::read_odd_on, machine_session::specs::Order::in_order))]
fn read_odd_on(image: &[u8], offset: usize, ne: usize, t: Transparent) -> Result<Action, StatusWord>
    ensures { result ≡ read_odd_on image.now offset ne t }
{
    let size = store_files::size(image, t);
    if size <= offset {
        return Err(status::WRONG_OFFSET);
    }
    if ne < 3 {
        return Err(status::WRONG_LENGTH);
    }
    let limit = min(ne, 2048) as u16;
    Ok(Action::ReadBinaryOdd(
        t,
        offset,
        objects_writer::longest_within(limit, size - offset),
    ))
}

// Steps 7 to 10.
#[tactic(auto, unfolding(crate::specs::ReadBinaryOdd::read_odd_by))]
fn read_odd_by(image: &[u8], s: Session, f: Frame, offset: usize) -> Result<Action, StatusWord>
    ensures { result ≡ read_odd_by image.now s f (Some offset) }
{
    let named = tests::id_or_current(tests::be16(f.header.p1, f.header.p2));
    let t = resolve_transparent(image, s, named)?;
    read_odd_on(image, offset, f.ne, t)
}

#[tactic(auto, unfolding(crate::specs::ReadBinaryOdd::read_binary_odd, machine_session::specs::Order::in_order))]
pub fn read_binary_odd(
    image: &[u8],
    s: Session,
    f: Frame,
    data: &[u8],
) -> Result<Action, StatusWord>
    ensures { result ≡ read_binary_odd image.now s f «data».now }
{
    if !tests::lc_and_le(f) {
        return Err(status::WRONG_LENGTH);
    }
    let offset = objects_templates::read_offset_object(data).ok_or(status::WRONG_DATA)?;
    read_odd_by(image, s, f, offset)
}
