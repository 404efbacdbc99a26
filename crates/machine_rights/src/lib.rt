// The rights of a certificate chain: how three certificates are joined into cleared form, and what a session
// with the rights may do. It knows nothing of files, commands or sessions.
#![tactic(auto)]

ghost use Rattle.std.specs.Prelude.{◌≡◌, true, false, ◌+◌, ◌-◌, ◌*◌, ◌≤◌, ◌<◌, ◌%◌, length, get_or};
ghost use Rattle.base.specs.Choice.{if_else};
ghost use Rattle.base.specs.Bytes.{part};
ghost use Rattle.machine_rights.specs.Rights.{bit, flagged, record_bit, may_records, biometrics_bit, may_biometrics};
ghost use Rattle.machine_rights.specs.Chain.{certificate, joined_bytes, joined, cleared_bytes, cleared, held, effective, is_cleared};

const TRAVEL: usize = 1;

const VISA: usize = 2;

const BIOMETRICS: usize = 3;

// What one certificate holds, and what a chain of three comes to. [B1]
#[derive(Clone, Copy, PartialEq, Eq)]
pub struct Rights {
    pub flags: u8,
    pub travel: u8,
    pub visa: u8,
    pub biometrics: [u8; 17],
}

// No flag and no right.
const NONE: Rights = Rights {
    flags: 0,
    travel: 0,
    visa: 0,
    biometrics: [0; 17],
};

// Bit b of a byte, b1 the lowest.
#[tactic(auto, unfolding(crate::specs::Rights::bit))]
fn bit(x: u8, b: usize) -> bool
    requires { (1 ≤ b) × (b ≤ 8) }
    ensures { result ≡ bit x b }
{
    (x >> (b - 1)) % 2 == 1
}

// The 17 bytes from `at` on. They are there, so the second case never comes. (No `copy_from_slice`: its copy goes by way of the stack.)
fn seventeen(s: &[u8], at: usize) -> [u8; 17]
    requires { at + 17 ≤ length s.now }
    ensures { result ≡ part s.now at 17 }
{
    match s[at..].first_chunk() {
        Some(bytes) => *bytes,
        None => [0; 17],
    }
}

// Certificate k of the three, counted from 0.
#[tactic(auto, unfolding(crate::specs::Chain::certificate))]
fn certificate(chain: &[u8], k: usize) -> Rights
    requires { (20 * k + 20 ≤ length chain.now) × (k < 3) }
    ensures { result ≡ certificate chain.now k }
{
    let at = 20 * k;
    Rights {
        flags: chain[at],
        travel: chain[at + 1],
        visa: chain[at + 2],
        biometrics: seventeen(chain, at + 3),
    }
}

// Joined element by element.
fn join_bytes(x: [u8; 17], y: [u8; 17]) -> [u8; 17]
    ensures { result ≡ joined_bytes x y }
{
    let mut z = [0; 17];
    for i in 0..17 {
        z[i] = x[i] & y[i];
    }
    z
}

// The bitwise and of two certificates, flags included.
#[tactic(auto, unfolding(crate::specs::Chain::joined))]
fn join(a: Rights, b: Rights) -> Rights
    ensures { result ≡ joined a b }
{
    Rights {
        flags: a.flags & b.flags,
        travel: a.travel & b.travel,
        visa: a.visa & b.visa,
        biometrics: join_bytes(a.biometrics, b.biometrics),
    }
}

// The byte of an application, which is zero without its flag.
fn under(flag: bool, x: u8) -> u8
    ensures { result ≡ if_else flag x 0 }
{
    if flag { x } else { 0 }
}

// The bytes of biometrics, likewise; of the first b1 and b2 are used.
#[tactic(auto, unfolding(crate::specs::Chain::cleared_bytes))]
fn clear_bytes(flag: bool, x: [u8; 17]) -> [u8; 17]
    ensures { result ≡ cleared_bytes flag x }
{
    if !flag {
        return [0; 17];
    }
    let mut z = x;
    z[0] = z[0] % 4;
    z
}

// RFU and ignored bits cleared, bytes of an application without its flag set to zero.
#[tactic(auto, unfolding(crate::specs::Chain::cleared))]
fn clear(r: Rights) -> Rights
    ensures { result ≡ cleared r }
{
    Rights {
        flags: r.flags % 8,
        travel: under(bit(r.flags, TRAVEL), r.travel % 16),
        visa: under(bit(r.flags, VISA), r.visa % 16),
        biometrics: clear_bytes(bit(r.flags, BIOMETRICS), r.biometrics),
    }
}

// The rights that 20 bytes hold, as a certificate does; none where there are fewer bytes.
#[tactic(auto, unfolding(crate::specs::Chain::no_rights, crate::specs::Chain::held))]
pub fn held(bytes: &[u8]) -> Rights
    ensures { result ≡ held bytes.now }
{
    if bytes.len() < 20 {
        return NONE;
    }
    certificate(bytes, 0)
}

// The effective rights of a chain of three certificates of 20 bytes; those of 60 zero bytes where there are not 60 bytes.
#[tactic(auto, unfolding(crate::specs::Chain::no_rights, crate::specs::Chain::effective))]
pub fn effective(certificates: &[u8]) -> Rights
    ensures { result ≡ effective certificates.now }
{
    if certificates.len() != 60 {
        return NONE;
    }
    let first = certificate(certificates, 0);
    let second = certificate(certificates, 1);
    let third = certificate(certificates, 2);
    clear(join(join(first, second), third))
}

// Whether rights are in cleared form.
pub fn is_cleared(r: Rights) -> bool
    ensures { result ≡ is_cleared r }
{
    clear(r) == r
}

// Whether the flag of an application is set.
#[tactic(auto, unfolding(crate::specs::Rights::flagged, base::specs::Choice::all_of))]
pub fn flag(r: Rights, application: usize) -> bool
    ensures { result ≡ flagged r application }
{
    (TRAVEL..=BIOMETRICS).contains(&application) && bit(r.flags, application)
}

// Which bit of the travel or visa byte serves reading or appending records, or certificates.
#[tactic(auto, unfolding(crate::specs::Rights::record_bit))]
fn record_bit(certificates: bool, append: bool) -> usize
    ensures { (result ≡ record_bit certificates append) × (1 ≤ result) × (result ≤ 8) }
{
    match (certificates, append) {
        (true, true) => 4,
        (true, false) => 3,
        (false, true) => 2,
        (false, false) => 1,
    }
}

// Byte k of the 17, counted from 1.
fn biometrics_byte(x: [u8; 17], k: usize) -> u8
    requires { (1 ≤ k) × (k ≤ 17) }
    ensures { result ≡ get_or x (k - 1) 0 }
{
    x[k - 1]
}

// Whether records, or certificates, of an application may be read, or appended.
#[tactic(auto, unfolding(crate::specs::Rights::may_records, crate::specs::Rights::biometrics_byte, crate::specs::Rights::record_bit, crate::specs::Rights::certificate_bit))]
pub fn may_records(r: Rights, application: usize, certificates: bool, append: bool) -> bool
    ensures { result ≡ may_records r application certificates append }
{
    match application {
        TRAVEL => bit(r.travel, record_bit(certificates, append)),
        VISA => bit(r.visa, record_bit(certificates, append)),
        BIOMETRICS => {
            certificates && bit(biometrics_byte(r.biometrics, 1), record_bit(false, append))
        }
        _ => false,
    }
}

// A bit of the 17 biometrics bytes: its byte, and the bit of that byte, both counted from 1.
#[derive(Clone, Copy)]
struct RightBit {
    byte: usize,
    bit: usize,
}

// Table 23 of ICAO's report: the four files of a byte, in its order. A row is a file's bit while Deactivated, then its bit while Activated.
const FILE_BITS: [[usize; 2]; 4] = [
    [8, 7], // Biometrics 1, 5, 9, …, 61
    [6, 5], // Biometrics 2, 6, 10, …, 62
    [4, 3], // Biometrics 3, 7, 11, …, 63
    [2, 1], // Biometrics 4, 8, 12, …, 64
];

// The columns of a row.
const DEACTIVATED: usize = 0;

const ACTIVATED: usize = 1;

// The bit that counts for Biometrics n in its state. Byte 1 is for certificates. Byte 2 has files 1 to 4, byte 3 files 5 to 8, and so on to
// byte 17.
#[tactic(auto, unfolding(crate::specs::Rights::file_bits, crate::specs::Rights::biometrics_bit))]
fn biometrics_bit(n: usize, activated: bool) -> RightBit
    requires { (1 ≤ n) × (n ≤ 64) }
    ensures { result ≡ biometrics_bit n activated }
{
    let row = FILE_BITS[(n - 1) % 4];
    RightBit {
        byte: 2 + (n - 1) / 4,
        bit: if activated {
            row[ACTIVATED]
        } else {
            row[DEACTIVATED]
        },
    }
}

// Whether Biometrics n may be used in its state.
#[tactic(auto, unfolding(crate::specs::Rights::may_biometrics, base::specs::Choice::all_of))]
pub fn may_biometrics(r: Rights, n: usize, activated: bool) -> bool
    ensures { result ≡ may_biometrics r n activated }
{
    if n < 1 || 64 < n {
        return false;
    }
    let b = biometrics_bit(n, activated);
    bit(biometrics_byte(r.biometrics, b.byte), b.bit)
}
