// What a link of a chain comes to. CLA b5 marks every link of a chain but the last.
#![tactic(auto)]

pub mod parameters;

ghost use Rattle.std.specs.Prelude.{◌≡◌};
ghost use Rattle.machine_chain.specs.Layout.{chain_in};
ghost use Rattle.machine_link.specs.Link.{is_link, class_of, is_command, head_status, passed, join_fits, link_turn, last_turn, turn, lent_fits};

use machine_action::tests;
use machine_apdu::status::StatusWord;
use machine_apdu::{Frame, Header, status};

// What becomes of a command that no status word stops: it goes on as a link, or it is obeyed, with what the chain has before its data.
#[derive(Clone, Copy)]
pub enum Course {
    Extends,
    Goes,
}

// Whether a command is a link but the last.
#[tactic(auto, unfolding(crate::specs::Link::is_link))]
fn is_link(h: Header) -> bool
    ensures { result ≡ is_link h }
{
    h.cla / 16 % 2 == 1
}

// CLA without b5.
#[tactic(auto, unfolding(crate::specs::Link::class_of, crate::specs::Link::is_link))]
fn class_of(h: Header) -> usize
    ensures { result ≡ class_of h }
{
    if is_link(h) { h.cla - 16 } else { h.cla }
}

// Whether a command has this pair of CLA and INS.
#[tactic(auto, unfolding(crate::specs::Link::is_command))]
fn is_command(class: usize, ins: usize) -> bool
    ensures { result ≡ is_command class ins }
{
    if class == 0x80 {
        ins == 0x5E
    } else {
        matches!(ins, 0xA4 | 0xB0 | 0xB1 | 0xD7 | 0x44 | 0xE2 | 0xB2 | 0xA2)
    }
}

// Steps 2 and 3, and whether the header is the chain's.
#[tactic(auto, unfolding(crate::specs::Link::head_status, machine_session::specs::Order::in_order))]
fn head_status(chain: &[u8], h: Header) -> Result<(), StatusWord>
    ensures { result ≡ passed (head_status (chain_in chain.now) h) }
{
    let class = class_of(h);
    if class != 0x00 && class != 0x80 {
        return Err(status::WRONG_CLASS);
    }
    if !is_command(class, h.ins) {
        return Err(status::WRONG_INSTRUCTION);
    }
    if !machine_chain::goes_on(chain, h) {
        return Err(status::OTHER_HEADER);
    }
    Ok(())
}

// Whether the join has at most 1,024 bytes.
#[tactic(auto, unfolding(crate::specs::Link::join_fits))]
fn join_fits(chain: &[u8], f: Frame) -> bool
    ensures { result ≡ join_fits (chain_in chain.now) f }
{
    let n = machine_chain::so_far(chain).len();
    n <= 1024 && f.lc <= 1024 - n
}

// A link but the last.
#[tactic(auto, unfolding(crate::specs::Link::link_turn, machine_session::specs::Order::in_order))]
fn link_turn(chain: &[u8], f: Frame) -> Result<Course, StatusWord>
    ensures { result ≡ link_turn (chain_in chain.now) f }
{
    let h = f.header;
    head_status(chain, h)?;
    if !parameters::fit(h.ins, h.p1, h.p2) {
        return Err(status::WRONG_PARAMETERS);
    }
    if !tests::lc_only(f) || !join_fits(chain, f) {
        return Err(status::WRONG_LENGTH);
    }
    Ok(Course::Extends)
}

// The last link of a chain. Its P1 and P2 are the chain's, which fit.
#[tactic(auto, unfolding(crate::specs::Link::last_turn, machine_session::specs::Order::in_order))]
fn last_turn(chain: &[u8], f: Frame) -> Result<Course, StatusWord>
    ensures { result ≡ last_turn (chain_in chain.now) f }
{
    head_status(chain, f.header)?;
    if !join_fits(chain, f) {
        return Err(status::WRONG_LENGTH);
    }
    Ok(Course::Goes)
}

// What a command with this frame comes to amid the chain.
#[tactic(auto, unfolding(crate::specs::Link::turn))]
pub fn turn(chain: &[u8], f: Frame) -> Result<Course, StatusWord>
    ensures { result ≡ turn (chain_in chain.now) f }
{
    if is_link(f.header) {
        link_turn(chain, f)
    } else if machine_chain::is_amid(chain) {
        last_turn(chain, f)
    } else {
        Ok(Course::Goes)
    }
}

// Whether bytes are a chain that links can have left.
#[tactic(auto, unfolding(crate::specs::Link::lent_fits, base::specs::Choice::all_of))]
pub fn fits(chain: &[u8]) -> bool
    ensures { result ≡ lent_fits chain.now }
{
    machine_chain::is_chain(chain)
        && (!machine_chain::is_amid(chain)
            || parameters::fit(
                base::byte(chain, 2),
                base::byte(chain, 3),
                base::byte(chain, 4),
            ))
}
