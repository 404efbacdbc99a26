// Tests that several commands share.
ghost use Rattle.std.specs.Prelude.{◌≡◌, ◌<◌};
ghost use Rattle.machine_action.specs.Tests.{lc_only, le_only, lc_and_le, neither, all_le, be16, or_current, id_or_current, id_in};

use machine_apdu::Frame;
use machine_session::Named;

// The four forms of step 5 have a function each: a command names its own, and one with two flags would say less where it is called.

// Lc, no Le.
#[tactic(auto, unfolding(crate::specs::Tests::lc_only, base::specs::Choice::all_of))]
pub fn lc_only(f: Frame) -> bool
    ensures { result ≡ lc_only f }
{
    1 <= f.lc && f.le == 0
}

// No Lc, Le.
#[tactic(auto, unfolding(crate::specs::Tests::le_only, base::specs::Choice::all_of))]
pub fn le_only(f: Frame) -> bool
    ensures { result ≡ le_only f }
{
    f.lc == 0 && 1 <= f.le
}

// Lc and Le.
#[tactic(auto, unfolding(crate::specs::Tests::lc_and_le, base::specs::Choice::all_of))]
pub fn lc_and_le(f: Frame) -> bool
    ensures { result ≡ lc_and_le f }
{
    1 <= f.lc && 1 <= f.le
}

// Neither Lc nor Le.
#[tactic(auto, unfolding(crate::specs::Tests::neither, base::specs::Choice::all_of))]
pub fn neither(f: Frame) -> bool
    ensures { result ≡ neither f }
{
    f.lc == 0 && f.le == 0
}

// An Le that asks for all: 00, or 0000.
#[tactic(auto, unfolding(crate::specs::Tests::all_le, base::specs::Choice::all_of))]
pub fn all_le(f: Frame) -> bool
    ensures { result ≡ all_le f }
{
    match f.le {
        1 => f.ne == 256,
        2 => f.ne == 65536,
        _ => false,
    }
}

// Two bytes as one number, the first the higher.
#[tactic(auto, unfolding(crate::specs::Tests::be16))]
pub fn be16(high: usize, low: usize) -> usize
    ensures { (result ≡ be16 high low) × (result < 65536) }
{
    high % 256 * 256 + low % 256
}

// Short id 0 is the current file.
#[tactic(auto, unfolding(crate::specs::Tests::or_current))]
pub fn or_current(x: usize) -> Named
    ensures { result ≡ or_current x }
{
    if x == 0 {
        Named::Current
    } else {
        Named::Short(x)
    }
}

// Id 0000 is the current file. (It stands beside `or_current`, since one function that takes the variant would be no plainer.)
#[tactic(auto, unfolding(crate::specs::Tests::id_or_current))]
pub fn id_or_current(i: usize) -> Named
    ensures { result ≡ id_or_current i }
{
    if i == 0 { Named::Current } else { Named::Id(i) }
}

// Two bytes as an id.
pub fn id_in(v: &[u8]) -> usize
    ensures { result ≡ id_in v.now }
{
    be16(base::byte(v, 0), base::byte(v, 1))
}
