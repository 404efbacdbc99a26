// Little-endian numbers; bytes past the end count as 0.
ghost use Rattle.std.specs.Prelude.{◌≡◌, ◌+◌, ◌≤◌, ◌<◌, length};
ghost use Rattle.store_records.specs.Little.{le16, le32};

// The 2-byte number at `at`, where both of its bytes are: two reads that a compiler makes one.
#[tactic(auto, unfolding(crate::specs::Little::le16))]
fn pair(s: &[u8], at: usize) -> usize
    requires { at + 2 ≤ length s.now }
    ensures { (result ≡ le16 s.now at) × (result < 65536) }
{
    usize::from(u16::from_le_bytes([s[at], s[at + 1]]))
}

// The 2-byte number at `at`.
#[tactic(auto, unfolding(crate::specs::Little::le16))]
pub fn read16(s: &[u8], at: usize) -> usize
    ensures { (result ≡ le16 s.now at) × (result < 65536) }
{
    if s.len() <= at {
        0
    } else if s.len() - at < 2 {
        base::byte(s, at)
    } else {
        pair(s, at)
    }
}

// The 4-byte number at `at`.
#[tactic(auto, using(crate::proofs::Numbers::le32_past), unfolding(crate::specs::Little::le32))]
pub fn read32(s: &[u8], at: usize) -> usize
    ensures { (result ≡ le32 s.now at) × (result < 4294967296) }
{
    if s.len() <= at {
        return 0;
    }
    // No `u32::from_le_bytes`: the number may stand across the end, and what is past it counts as 0.
    read16(s, at) + 65536 * read16(s, at + 2)
}
