// Steps 1 to 3 of the order of status words, and then the command.
#![tactic(auto)]

ghost use Rattle.std.specs.Prelude.{◌≡◌};
ghost use Rattle.machine_dispatch.specs.Decide.{by_ins, by_own_ins, by_class};

use machine_action::Action;
use machine_apdu::status::StatusWord;
use machine_apdu::{Frame, status};
use machine_session::Session;

// Step 3 for CLA 00.
#[tactic(auto, unfolding(crate::specs::Decide::by_ins))]
fn by_ins(image: &[u8], s: Session, f: Frame, data: &[u8]) -> Result<Action, StatusWord>
    ensures { result ≡ by_ins image.now s f «data».now }
{
    match f.header.ins {
        0xA4 => machine_select::select::select(image, s, f, data),
        0xB0 => machine_binary::read_binary::read_binary(image, s, f),
        0xB1 => machine_binary::read_binary_odd::read_binary_odd(image, s, f, data),
        0xD7 => machine_binary::update_binary::update_binary(image, s, f, data),
        0x44 => machine_binary::activate::activate_file(image, s, f),
        0xE2 => machine_record::append_record::append_record(image, s, f, data),
        0xB2 => machine_record::read_record::read_record(image, s, f),
        0xA2 => machine_record::search_record::search_record(image, s, f, data),
        _ => Err(status::WRONG_INSTRUCTION),
    }
}

// Step 3 for CLA 80.
#[tactic(auto, unfolding(crate::specs::Decide::by_own_ins))]
fn by_own_ins(image: &[u8], s: Session, f: Frame, data: &[u8]) -> Result<Action, StatusWord>
    ensures { result ≡ by_own_ins image.now s f «data».now }
{
    if f.header.ins == 0x5E {
        machine_select::fmm::fmm(image, s, f, data)
    } else {
        Err(status::WRONG_INSTRUCTION)
    }
}

// Steps 2 and 3, for a command that step 1 has taken apart.
#[tactic(auto, unfolding(crate::specs::Decide::by_class))]
pub fn by_class(image: &[u8], s: Session, f: Frame, data: &[u8]) -> Result<Action, StatusWord>
    ensures { result ≡ by_class image.now s f «data».now }
{
    match f.header.cla {
        0x00 => by_ins(image, s, f, data),
        0x80 => by_own_ins(image, s, f, data),
        _ => Err(status::WRONG_CLASS),
    }
}
