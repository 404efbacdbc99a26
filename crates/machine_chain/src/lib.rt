// The chain of a session: the links of a command so far. It stands in bytes that are lent, so that no call copies it: its length (2 bytes,
// little-endian; 0 where there is none), INS, P1, P2, and room for 1,024 bytes. What it does not use is zero.
#![tactic(auto)]

ghost use Rattle.std.specs.Prelude.{◌≡◌, ◌+◌, ◌≤◌, length};
ghost use Rattle.base.specs.Choice.{if_else};
ghost use Rattle.base.specs.Bytes.{put};
ghost use Rattle.machine_chain.specs.Chain.{is_amid, so_far, goes_on};
ghost use Rattle.machine_chain.specs.Layout.{no_chain_bytes, zero_run, is_chain, chain_in, join_into};

use machine_apdu::Header;
use store_records::little::read16;

// How many bytes a chain has, with its head and its room.
pub const LENGTH: usize = 1029;

// Whether the n bytes from `a` on are zero. It gathers the bits of all and does not stop early: so the compiler looks at many bytes at once.
#[tactic(auto, unfolding(crate::specs::Layout::zero_run))]
fn zero_run(chain: &[u8], a: usize, n: usize) -> bool
    requires { a + n ≤ length chain.now }
    ensures { result ≡ zero_run chain.now a n }
{
    let mut bits = 0;
    for b in &chain[a..a + n] {
        bits |= *b;
    }
    bits == 0
}

// Whether bytes are a chain's.
#[tactic(auto, unfolding(crate::specs::Layout::is_chain, crate::specs::Layout::unused_zeros, base::specs::Choice::all_of))]
pub fn is_chain(chain: &[u8]) -> bool
    ensures { result ≡ is_chain chain.now }
{
    let n = read16(chain, 0);
    if chain.len() < LENGTH || 1024 < n {
        return false;
    }
    if n == 0 {
        zero_run(chain, 2, 1027)
    } else {
        zero_run(chain, 5 + n, 1024 - n)
    }
}

// Whether there is a chain.
#[tactic(auto, unfolding(crate::specs::Layout::chain_in))]
pub fn is_amid(chain: &[u8]) -> bool
    ensures { result ≡ is_amid (chain_in chain.now) }
{
    read16(chain, 0) != 0
}

// The bytes of its links so far, as the part of the lent bytes that they are.
#[tactic(auto, unfolding(crate::specs::Layout::chain_in))]
pub fn so_far(chain: &[u8]) -> &[u8]
    ensures { result.now ≡ so_far (chain_in chain.now) }
{
    base::part(chain, 5, read16(chain, 0))
}

// Whether a command goes on with the chain: there is none, or it has the same INS, P1 and P2.
#[tactic(auto, unfolding(base::specs::Choice::all_of, crate::specs::Layout::chain_in))]
pub fn goes_on(chain: &[u8], h: Header) -> bool
    ensures { result ≡ goes_on (chain_in chain.now) h }
{
    read16(chain, 0) == 0
        || (base::byte(chain, 2) == h.ins
            && base::byte(chain, 3) == h.p1
            && base::byte(chain, 4) == h.p2)
}

// Puts the data of a link behind the links so far.
pub fn extend(chain: &mut [u8], h: Header, data: &[u8])
    ensures { chain.new ≡ join_into chain.old h «data».now }
{
    let n = read16(chain, 0);
    base::put(chain, 5 + n, data);
    let m = n + data.len();
    let [low, high, ..] = m.to_le_bytes();
    // A cast may lose no bit, and the contract takes any header: hence the remainders.
    let head = [
        low,
        high,
        (h.ins % 256) as u8,
        (h.p1 % 256) as u8,
        (h.p2 % 256) as u8,
    ];
    base::put(chain, 0, &head);
}

// The data of the last link joins a chain; without a chain nothing is written.
#[tactic(auto, unfolding(crate::specs::Layout::chain_in, crate::specs::Layout::join_into))]
pub fn join(chain: &mut [u8], h: Header, data: &[u8])
    ensures { chain.new ≡ if_else (is_amid (chain_in chain.old)) (join_into chain.old h «data».now) chain.old }
{
    if is_amid(chain) {
        extend(chain, h, data);
    }
}

// The data of the whole command: those of the chain, or the command's own where there is none.
#[tactic(auto, unfolding(crate::specs::Layout::chain_in))]
pub fn joined<'a>(chain: &'a [u8], own: &'a [u8]) -> &'a [u8]
    ensures { result.now ≡ if_else (is_amid (chain_in chain.now)) (so_far (chain_in chain.now)) own.now }
{
    if is_amid(chain) { so_far(chain) } else { own }
}

// The chain ends: its bytes are zero again.
#[tactic(auto, unfolding(crate::specs::Layout::no_chain_bytes, crate::specs::Layout::chain_in, base::specs::Bytes::put))]
pub fn end(chain: &mut [u8])
    ensures { chain.new ≡ if_else (is_amid (chain_in chain.old)) (put chain.old 0 no_chain_bytes) chain.old }
{
    if is_amid(chain) {
        base::put(chain, 0, &[0u8; 1029]);
    }
}
