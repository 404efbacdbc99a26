// The results of the functions for C, taken apart: from the low end 16 bits of status and 16 of length, or 32 of a moved card's length or of how
// many stores a command has, or 10 of a certificate's length, 18 of its place and 4 that say whose it is; and then the number of the refusal. The
// result of a file has 32 bits of length, and its place; that of a stamp 32 bits of offset, and the reason of its fault. They stay numbers, and no
// enum or Option is made of them here: each contract is the number that C gets, and has a theorem (proofs/Determined.antt).
ghost use Rattle.std.specs.Prelude.{◌≡◌, ◌/◌, ◌%◌};

// The number of the refusal, 0 where there is none.
pub fn refusal(res: u64) -> u64
    ensures { result ≡ res / 4294967296 }
{
    res / 4294967296
}

// The status word of a command.
pub fn status(res: u64) -> u64
    ensures { result ≡ res % 65536 }
{
    res % 65536
}

// How many bytes a command has answered.
pub fn length(res: u64) -> usize
    ensures { result ≡ res / 65536 % 65536 }
{
    (res / 65536 % 65536) as usize
}

// How many stores a command that is cut has in all.
pub fn stores(res: u64) -> usize
    ensures { result ≡ res % 4294967296 }
{
    (res % 4294967296) as usize
}

// How long the image is that a move has made.
pub fn moved_length(res: u64) -> usize
    ensures { result ≡ res % 4294967296 }
{
    (res % 4294967296) as usize
}

// Where the body of a file stands.
pub fn file_place(res: u64) -> usize
    ensures { result ≡ res / 4294967296 }
{
    (res / 4294967296) as usize
}

// How long that body is.
pub fn file_length(res: u64) -> usize
    ensures { result ≡ res % 4294967296 }
{
    (res % 4294967296) as usize
}

// Which body has a certificate: 1 the card's, 2 the desk's, 0 neither.
pub fn certificate_which(res: u64) -> u64
    ensures { result ≡ res / 268435456 % 16 }
{
    res / 268435456 % 16
}

// Where the certificate stands in that body.
pub fn certificate_place(res: u64) -> usize
    ensures { result ≡ res / 1024 % 262144 }
{
    (res / 1024 % 262144) as usize
}

// How long it is.
pub fn certificate_length(res: u64) -> usize
    ensures { result ≡ res % 1024 }
{
    (res % 1024) as usize
}

// Why a record is no stamp: 1 tag, 2 length, 3 content; 0 where it is one.
pub fn stamp_reason(res: u64) -> u64
    ensures { result ≡ res / 4294967296 }
{
    res / 4294967296
}

// Where its first fault is.
pub fn stamp_offset(res: u64) -> usize
    ensures { result ≡ res % 4294967296 }
{
    (res % 4294967296) as usize
}
