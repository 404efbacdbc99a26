// Writes the page docs/TABLE23.md: which bit counts for each biometrics file, to be laid beside Table 23 of ICAO's report. The program does
// not know where a right stands. It asks `may_biometrics`, as the machine does, with one bit set and no other, and tries every bit
// for every number that a file could have. Bytes and bits count from 1, as in the table.
#![tactic(auto)]

use machine_rights::Rights;
use program_console::word;
use std::io::{Stdout, Write};
use store_files::{File, Transparent};

// The page down to the head of its table, in Markdown: what the program asks, and what the letters mean.
const HEAD: [&str; 19] = [
    "# Biometrics 1 to 64 beside Table 23",
    "",
    "The program `crates/test_rights` writes this page, and the gate compares it.",
    "Do not edit it by hand.",
    "",
    "The program asks `may_biometrics`, by which the machine tells whether a session may",
    "use a biometrics file. It sets one of the 136 bits of the 17 biometrics bytes and no",
    "other, and asks about each file number from 0 to 255 in both states. A letter stands",
    "where the answer is yes:",
    "",
    "- D: the file may be used while Deactivated: select, FMM, read, write, activate.",
    "- A: the file may be used while Activated: select, FMM, read.",
    "",
    "A file has a row for each byte in which it has a letter. A number that has no row has",
    "no bit. ICAO's Table 23 has two rows for a file: D is the first, A the second. Its",
    "byte 1 is for EF.Certificates.",
    "",
    "| byte | file            | EF identifier | b8 | b7 | b6 | b5 | b4 | b3 | b2 | b1 |",
    "|-----:|-----------------|---------------|----|----|----|----|----|----|----|----|",
];

// The bits of a byte, as the table has them: b8 first.
const BITS: [u8; 8] = [0x80, 0x40, 0x20, 0x10, 8, 4, 2, 1];

// Rights with the biometrics flag, one bit of the 17 bytes, and nothing else.
fn alone(byte: usize, bit: u8) -> Rights {
    let mut biometrics = [0; 17];
    if let Some(place) = biometrics.get_mut(byte.saturating_sub(1)) {
        *place = bit;
    }
    Rights {
        flags: 4,
        travel: 0,
        visa: 0,
        biometrics,
    }
}

// Whether a bit alone is enough to use Biometrics n in a state.
fn opens(n: u8, activated: bool, byte: usize, bit: u8) -> bool {
    machine_rights::may_biometrics(alone(byte, bit), usize::from(n), activated)
}

// Whether Biometrics n has a letter in a byte.
fn has_letter(n: u8, byte: usize) -> bool {
    BITS.iter().any(|bit| opens(n, false, byte, *bit) || opens(n, true, byte, *bit))
}

// The cells before the bits: the byte, the file, and the identifier by which the machine knows it.
fn first_cells(mut out: Stdout, n: u8, byte: usize) {
    let id = store_files::id_of(File::TransparentFile(Transparent::Biometrics(n)));
    let _ = write!(
        out,
        "|   {byte:>2} | EF.Biometrics{n:<2} | {id:04X}          |"
    );
}

// The cell of a bit, with its letter, or with both should the bit count in both states.
fn cell(out: Stdout, n: u8, byte: usize, bit: u8) {
    let text = match (opens(n, false, byte, bit), opens(n, true, byte, bit)) {
        (true, true) => " DA |",
        (true, false) => " D  |",
        (false, true) => " A  |",
        (false, false) => "    |",
    };
    word(out, text.as_bytes());
}

// The row of Biometrics n for a byte.
fn row(out: Stdout, n: u8, byte: usize) {
    first_cells(out, n, byte);
    for bit in BITS {
        cell(out, n, byte, bit);
    }
    program_console::end(out);
}

// The rows of Biometrics n.
fn file(out: Stdout, n: u8) {
    for byte in (1..=17).filter(|byte| has_letter(n, *byte)) {
        row(out, n, byte);
    }
}

// Writes lines.
fn lines(out: Stdout, texts: &[&str]) {
    for text in texts {
        word(out, text.as_bytes());
        program_console::end(out);
    }
}

fn main(rt: HostRuntime) {
    let out = rt.stdout();
    lines(out, &HEAD);
    for n in 0..=255 {
        file(out, n);
    }
}
