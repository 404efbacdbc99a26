// Command bytes: which of ISO/IEC 7816-4's seven shapes they have, and where the data stands in them.
#![tactic(auto)]

pub mod status;

ghost use Rattle.std.specs.Prelude.{◌≡◌, ◌<◌, length, get_or};
ghost use Rattle.machine_apdu.specs.Shape.{be16_at, or_most, framed, shape_of};

#[derive(Clone, Copy)]
pub struct Header {
    pub cla: usize,
    pub ins: usize,
    pub p1: usize,
    pub p2: usize,
}

// The header; where the data begins and how many bytes it has; how many bytes say Le (0 none, 1 a short Le, 2 an extended one); Ne,
// which is 0 without Le.
#[derive(Clone, Copy)]
pub struct Frame {
    pub header: Header,
    pub from: usize,
    pub lc: usize,
    pub le: usize,
    pub ne: usize,
}

// The two bytes at i, the first the higher.
#[tactic(auto, unfolding(crate::specs::Shape::be16_at))]
fn be16_at(command: &[u8], i: usize) -> usize
    requires { i < length command.now }
    ensures { (result ≡ be16_at command.now i) × (result < 65536) }
{
    base::byte(command, i) * 256 + base::byte(command, i + 1)
}

// A number in which 0 stands for the most.
#[tactic(auto, unfolding(crate::specs::Shape::or_most))]
fn or_most(n: usize, most: usize) -> usize
    ensures { result ≡ or_most n most }
{
    if n == 0 { most } else { n }
}

// The frame of a command by what stands behind its header.
#[tactic(auto, unfolding(crate::specs::Shape::framed, crate::specs::Shape::header_of))]
fn framed(command: &[u8], from: usize, lc: usize, le: usize, ne: usize) -> Option<Frame>
    ensures { result ≡ framed command.now from lc le ne }
{
    let header = Header {
        cla: base::byte(command, 0),
        ins: base::byte(command, 1),
        p1: base::byte(command, 2),
        p2: base::byte(command, 3),
    };
    Some(Frame {
        header,
        from,
        lc,
        le,
        ne,
    })
}

// The shapes with a short Lc, which is b.
fn short_shape(command: &[u8], b: usize) -> Option<Frame>
    requires { (b ≡ get_or command.now 4 0) × (0 < b) × (b < 256) × (5 < length command.now) }
    ensures { result ≡ shape_of command.now }
{
    let n = command.len();
    if n == 5 + b {
        return framed(command, 5, b, 0, 0);
    }
    if n == 6 + b {
        return framed(command, 5, b, 1, or_most(base::byte(command, 5 + b), 256));
    }
    None
}

// The shapes with an extended Lc, which is w.
fn extended_shape(command: &[u8], w: usize) -> Option<Frame>
    requires { (get_or command.now 4 0 ≡ 0) × (w ≡ be16_at command.now 5) × (w < 65536) × (7 < length command.now) }
    ensures { result ≡ shape_of command.now }
{
    let n = command.len();
    if w == 0 || 1024 < w {
        return None;
    }
    if n == 7 + w {
        return framed(command, 7, w, 0, 0);
    }
    if n == 9 + w {
        return framed(command, 7, w, 2, or_most(be16_at(command, 7 + w), 65536));
    }
    None
}

// Which shape a command has, with at most 1,024 bytes of data.
pub fn shape(command: &[u8]) -> Option<Frame>
    ensures { result ≡ shape_of command.now }
{
    let n = command.len();
    if n < 4 {
        return None;
    }
    if n == 4 {
        return framed(command, 4, 0, 0, 0);
    }
    let b = base::byte(command, 4);
    if n == 5 {
        return framed(command, 4, 0, 1, or_most(b, 256));
    }
    if b != 0 {
        return short_shape(command, b);
    }
    if n < 7 {
        return None;
    }
    let w = be16_at(command, 5);
    if n == 7 {
        return framed(command, 4, 0, 2, or_most(w, 65536));
    }
    extended_shape(command, w)
}
