// The status words, each by its name.

// A status word is the number that stands in the reply, and no enum: the promises (`GetsWord`, `SaysNo`) speak of `status` of `Answer` as that
// number, and an enum would have each word a second time, beside its number.
pub type StatusWord = usize;

// The command is done.
pub const NORMAL: StatusWord = 0x9000;

// No record matches a search.
pub const NO_MATCH: StatusWord = 0x6282;

pub const WRONG_LENGTH: StatusWord = 0x6700;

pub const WRONG_CLASS: StatusWord = 0x6E00;

pub const WRONG_INSTRUCTION: StatusWord = 0x6D00;

// P1 or P2.
pub const WRONG_PARAMETERS: StatusWord = 0x6A86;

pub const WRONG_DATA: StatusWord = 0x6A80;

pub const NO_CURRENT_FILE: StatusWord = 0x6986;

pub const FILE_NOT_FOUND: StatusWord = 0x6A82;

// A record command on a transparent file, or the other way round.
pub const WRONG_FILE_TYPE: StatusWord = 0x6981;

pub const NOT_PERMITTED: StatusWord = 0x6982;

// An offset at or behind a file's end.
pub const WRONG_OFFSET: StatusWord = 0x6B00;

pub const RECORD_NOT_FOUND: StatusWord = 0x6A83;

pub const NO_ROOM: StatusWord = 0x6A84;

// Another header amid a chain.
pub const OTHER_HEADER: StatusWord = 0x6883;
