// A command that is cut: what it leaves of the image where only the first of its stores are made. APPEND RECORD and ACTIVATE have stores, the
// same that the whole command makes; no other command has any.
#![tactic(auto)]

ghost use Rattle.std.specs.Prelude.{◌≡◌, ◌++◌, length};
ghost use Rattle.machine_chain.specs.Chain.{so_far};
ghost use Rattle.machine_chain.specs.Layout.{chain_in};
ghost use Rattle.machine_dispatch.specs.Decide.{by_class, whole_frame};
ghost use Rattle.machine.specs.Loops.{Ready};
ghost use Rattle.machine_cut.specs.Cutting.{storing, cut_outcome, cut_lent};
ghost use Rattle.machine_cut.specs.Loops.{Cuts};

use machine::Judgement;
use machine_action::Action;
use machine_apdu::Frame;
use machine_apdu::status::StatusWord;
use machine_binary::activate::activate_file;
use machine_record::append_record::append_record;
use machine_session::{Refusal, Session};
use store_cut::Writing;
use store_kinds::rules;

// What a cut answers: whether it is accepted, and how many stores the whole command has. (It is a struct and no Result, since `cut_outcome`, and with it
// the theorems of promises on cuts, name its two fields.)
#[derive(Clone, Copy)]
pub struct CutAnswer {
    pub verdict: Result<(), Refusal>,
    pub stores: usize,
}

#[tactic(auto, unfolding(crate::specs::Cutting::storing))]
fn storing(d: Result<Action, StatusWord>) -> Option<(usize, Writing)>
    ensures { result ≡ storing d }
{
    match d {
        Ok(Action::Activate(n)) => Some((rules::biometrics_kind(n), Writing::State)),
        Ok(Action::AppendRecord(r)) => Some((r.kind, Writing::Record)),
        _ => None,
    }
}

// What the whole command stores. Only APPEND RECORD and ACTIVATE store, so no other command is decided here.
fn stored(image: &[u8], s: Session, f: Frame, data: &[u8]) -> Option<(usize, Writing)>
    requires { length «data».now ≡ f.lc }
    ensures { result ≡ storing (by_class image.now s f «data».now) }
{
    if f.header.cla != 0x00 {
        return None;
    }
    match f.header.ins {
        0xE2 => storing(append_record(image, s, f, data)),
        0x44 => storing(activate_file(image, s, f)),
        _ => None,
    }
}

// Makes the first k stores. Answers how many there are in all.
fn make(image: &mut [u8], t: Option<(usize, Writing)>, data: &[u8], k: usize) -> usize
    ensures { Cuts k t image.old «data».now result image.new }
{
    match t {
        Some((kind, w)) => store_image::make_stores(image, kind, w, data, k),
        None => 0,
    }
}

// A command that would be obeyed: makes the first k of its stores. The chain is only lent to be read, so the join stands in a copy of it.
fn obey(image: &mut [u8], s: Session, f: Frame, own: &[u8], chain: &[u8], k: usize) -> usize
    requires { Ready image.old chain.now f own.now 2050 }
    ensures { Cuts k (storing (by_class image.old s (whole_frame (chain_in chain.now) f) (so_far (chain_in chain.now) ++ own.now))) image.old (so_far (chain_in chain.now) ++ own.now) result image.new }
{
    let mut copy = [0u8; 1029];
    base::put(&mut copy, 0, base::part(chain, 0, 1029));
    machine_chain::join(&mut copy, f.header, own);
    let data = machine_chain::joined(&copy, own);
    let whole = Frame {
        lc: data.len(),
        ..f
    };
    let t = stored(image, s, whole, data);
    make(image, t, data, k)
}

// One command, cut behind its first k stores. It is judged as a command whose response buffer is long enough. A link but the last has no stores.
pub fn cut(image: &mut [u8], s: Session, chain: &[u8], command: &[u8], k: usize) -> CutAnswer
    ensures { cut_outcome result image.new ≡ cut_lent image.old s chain.now command.now k }
{
    match machine::judged(image, s, chain, command, 2050) {
        Judgement::Denied(r) => CutAnswer {
            verdict: Err(r),
            stores: 0,
        },
        Judgement::Stopped(_) | Judgement::Linked(_) => CutAnswer {
            verdict: Ok(()),
            stores: 0,
        },
        Judgement::Obeyed(f) => {
            let own = base::part(command, f.from, f.lc);
            CutAnswer {
                verdict: Ok(()),
                stores: obey(image, s, f, own, chain, k),
            }
        }
    }
}
