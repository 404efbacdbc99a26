// What programs write with: answers to standard output as words, numbers in decimal and bytes in hexadecimal, and what is wrong to standard
// error. A contract here says nothing of what is written, for the logic does not speak of it; the gate compares the answers. A write that
// fails is passed over: there is no other place where it could be told.
#![tactic(auto)]

pub mod cases;
pub mod result;
pub mod words;

ghost use Rattle.std.specs.Prelude.{◌≡◌, ◌≤◌, length, replicate};

use std::io::{Read, Stderr, Stdin, Stdout};

// Writes a word.
pub fn word(out: Stdout, s: &[u8])
    ensures { Unit {0} }
{
    let _ = out.write_all(s);
}

// Writes a word to standard error: what is wrong, apart from the answers.
pub fn warn(err: Stderr, s: &[u8])
    ensures { Unit {0} }
{
    let _ = err.write_all(s);
}

// Ends the line.
pub fn end(out: Stdout)
    ensures { Unit {0} }
{
    word(out, b"\n");
}

// Writes a number.
pub fn number(out: Stdout, n: u64)
    ensures { Unit {0} }
{
    let _ = out.print(n);
}

// Writes a space and a number.
pub fn field(out: Stdout, n: usize)
    ensures { Unit {0} }
{
    word(out, b" ");
    number(out, n as u64);
}

// Writes a space and 1 for yes, 0 for no.
pub fn flag(out: Stdout, yes: bool)
    ensures { Unit {0} }
{
    word(out, if yes { b" 1" } else { b" 0" });
}

// How many bytes are written at once, since each write is a call of the system.
const AT_ONCE: usize = 1024;

// A digit: card tools have capitals, the tables of test programs small letters. (No format: that takes many times as long for each byte.)
fn digit(n: u8, for_tools: bool) -> u8 {
    match n % 16 {
        d @ 0..=9 => b'0' + d,
        d if for_tools => b'A' - 10 + d,
        d => b'a' - 10 + d,
    }
}

// Writes the first AT_ONCE bytes of s in hexadecimal, or all where there are fewer; for card tools with a space before each.
fn some(out: Stdout, s: &[u8], for_tools: bool) {
    let mut text = [b' '; 3072];
    let n = s.len().min(AT_ONCE);
    for i in 0..n {
        let at = if for_tools { 3 * i + 1 } else { 2 * i };
        text[at] = digit(s[i] / 16, for_tools);
        text[at + 1] = digit(s[i], for_tools);
    }
    word(out, &text[..if for_tools { 3 * n } else { 2 * n }]);
}

// Writes the bytes of s in hexadecimal, as `some` does.
fn hexadecimal(out: Stdout, s: &[u8], for_tools: bool) {
    for piece in s.chunks(AT_ONCE) {
        some(out, piece, for_tools);
    }
}

// Writes a space and the bytes of s, `-` where there are none.
pub fn bytes(out: Stdout, s: &[u8])
    ensures { Unit {0} }
{
    word(out, b" ");
    if s.is_empty() {
        word(out, b"-");
    }
    hexadecimal(out, s, false);
}

// Writes the bytes of s as card tools do, a space before each.
pub fn spell(out: Stdout, s: &[u8])
    ensures { Unit {0} }
{
    hexadecimal(out, s, true);
}

// Room for all input, or for a card's image: more than the largest has, so that a file that is too long is known. The three rooms stay three
// functions, and none takes a const parameter: each has its contract and its theorem (proofs/Determined.antt).
pub fn room() -> [u8; 524288]
    ensures { result ≡ replicate 524288 0 }
{
    [0; 524288]
}

// Room for a path, or for a command and its response.
pub fn buffer() -> [u8; 4096]
    ensures { result ≡ replicate 4096 0 }
{
    [0; 4096]
}

// Room for a line of the input.
pub fn large_buffer() -> [u8; 65536]
    ensures { result ≡ replicate 65536 0 }
{
    [0; 65536]
}

// Reads standard input until `out` is full, the input ends or a read fails. Answers how many bytes stand at the start of `out` then. The loop
// stays a `while`: a read says how far it goes on.
pub fn read_full(mut input: Stdin, out: &mut [u8]) -> usize
    ensures { result ≤ length out.new }
{
    let mut have = 0;
    while have < out.len() {
        match input.read(&mut out[have..]) {
            Ok(n) if 0 < n => have += n,
            _ => return have,
        }
    }
    have
}
