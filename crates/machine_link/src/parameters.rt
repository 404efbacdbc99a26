// Step 4, for every command by its INS.
ghost use Rattle.std.specs.Prelude.{◌≡◌, [], ◌∷◌};
ghost use Rattle.base.specs.Choice.{all_of};
ghost use Rattle.machine_select.specs.Select.{select_p2, one_of_three};
ghost use Rattle.machine_select.specs.Fmm.{fmm_p1, fmm_p2};
ghost use Rattle.machine_binary.specs.Activate.{activate_parameters};
ghost use Rattle.machine_record.specs.AppendRecord.{append_parameters};
ghost use Rattle.machine_record.specs.SearchRecord.{search_parameters};
ghost use Rattle.machine_link.specs.Parameters.{parameters_fit};

use machine_binary::read_binary;
use machine_record::read_record;
use machine_select::select;

#[tactic(auto, unfolding(base::specs::Choice::all_of))]
fn of_select(p1: usize, p2: usize) -> bool
    ensures { result ≡ all_of (select_p2 p2 ∷ one_of_three p1 ∷ []) }
{
    p2 == 0x0C && select::one_of_three(p1)
}

#[tactic(auto, unfolding(base::specs::Choice::all_of))]
fn of_activate(p1: usize, p2: usize) -> bool
    ensures { result ≡ activate_parameters p1 p2 }
{
    p1 == 0 && p2 == 0
}

#[tactic(auto, unfolding(base::specs::Choice::all_of))]
fn of_append(p1: usize, p2: usize) -> bool
    ensures { result ≡ append_parameters p1 p2 }
{
    p1 == 0 && p2 % 8 == 0
}

#[tactic(auto, unfolding(base::specs::Choice::all_of))]
fn of_search(p1: usize, p2: usize) -> bool
    ensures { result ≡ search_parameters p1 p2 }
{
    p1 == 0 && p2 == 0xF8
}

#[tactic(auto, unfolding(base::specs::Choice::all_of))]
fn of_fmm(p1: usize, p2: usize) -> bool
    ensures { result ≡ all_of (fmm_p1 p1 ∷ fmm_p2 p2 ∷ []) }
{
    p1 <= 1 && p2 <= 7
}

// Whether the command with this INS has these P1 and P2. An INS that no command has fits none.
#[tactic(auto, unfolding(crate::specs::Parameters::parameters_fit))]
pub fn fit(ins: usize, p1: usize, p2: usize) -> bool
    ensures { result ≡ parameters_fit ins p1 p2 }
{
    match ins {
        0xA4 => of_select(p1, p2),
        0xB0 => read_binary::p1_fits(p1),
        0xB1 | 0xD7 => true,
        0x44 => of_activate(p1, p2),
        0xE2 => of_append(p1, p2),
        0xB2 => read_record::four_or_five(p2 % 8),
        0xA2 => of_search(p1, p2),
        0x5E => of_fmm(p1, p2),
        _ => false,
    }
}
