// The match of SEARCH RECORD: a string anywhere in a record's window.
#![tactic(auto)]

ghost use Rattle.std.specs.Prelude.{◌≡◌, true, ◌+◌, ◌≤◌, ◌<◌, min, length, drop};
ghost use Rattle.machine_window.specs.Window.{occurs_in, window_of, matches_in};
ghost use Rattle.machine_window.specs.Loops.{Stand, Likely, Clear, PassedTo, Ran, Filled};

// How many of a string's bytes the table of moves reaches: as many as the longest record has. A longer string is found too, at more cost.
const REACH: usize = 929;

// How many places are tried in vain before the table of moves is made. Few, since each try may compare the whole string.
const TRIES: usize = 4;

// Whether text may stand in w at p: its first byte does, and the one at y.
fn likely(w: &[u8], p: usize, text: &[u8], y: usize) -> bool
    requires { (p + length text.now ≤ length w.now) × (y < length text.now) }
    ensures { Likely w.now text.now p result }
{
    (w[p] == text[0]) & (w[p + y] == text[y])
}

// Whether text stands at none of the sixteen places from p on, by those two bytes. All are looked at, without a branch between them, so
// that the compiler makes compares of sixteen bytes of this.
fn clear(w: &[u8], p: usize, text: &[u8], y: usize) -> bool
    requires { (p + 15 + length text.now ≤ length w.now) × (y < length text.now) }
    ensures { result ≡ true → Clear w.now text.now p (p + 16) }
{
    let mut none = true;
    for i in 0..16 {
        none &= !likely(w, p + i, text, y);
    }
    none
}

// A place from `from` on before which text does not stand: sixteen places at a time. (A while, since where the last step leads to is the
// answer too.)
fn skip(w: &[u8], from: usize, text: &[u8], y: usize) -> usize
    requires { (from ≤ length w.now) × (length text.now ≤ length w.now) × (y < length text.now) }
    ensures { (from ≤ result) × Clear w.now text.now from result }
{
    let last = w.len() - text.len();
    let mut p = from;
    while p + 15 <= last {
        if !clear(w, p, text, y) {
            return p;
        }
        p += 16;
    }
    p
}

// The first place from `from` on where text's first byte and the one at y stand, or a place from which too few bytes are left. Any y is
// right; one whose byte is rare in w passes over more at once.
fn seek(w: &[u8], from: usize, text: &[u8], y: usize) -> usize
    requires { (from ≤ length w.now) × (length text.now ≤ length w.now) × (y < length text.now) }
    ensures { PassedTo w.now text.now from result }
{
    let start = skip(w, from, text, y);
    let end = w.len() - text.len() + 1;
    for p in start..end {
        if likely(w, p, text, y) {
            return p;
        }
    }
    start.max(end)
}

// Whether the sixteen bytes of text from i on stand in w too, where those before them do. All are looked at, as in clear.
fn alike(w: &[u8], p: usize, text: &[u8], i: usize) -> bool
    requires { (p + length text.now ≤ length w.now) × (i + 16 ≤ length text.now) × Stand w.now text.now p i }
    ensures { result ≡ true → Stand w.now text.now p (i + 16) }
{
    let mut all = true;
    for k in 0..16 {
        let j = i + k;
        all &= w[p + j] == text[j];
    }
    all
}

// Some of text's first bytes that stand in w from p on, sixteen more at a time; that q do is known. (A while, as in skip.)
fn leap(w: &[u8], p: usize, text: &[u8], q: usize) -> usize
    requires { (p + length text.now ≤ length w.now) × (q ≤ length text.now) × Stand w.now text.now p q }
    ensures { (q ≤ result) × (result ≤ length text.now) × Stand w.now text.now p result }
{
    let mut i = q;
    while i + 16 <= text.len() {
        if !alike(w, p, text, i) {
            return i;
        }
        i += 16;
    }
    i
}

// How many of text's first bytes stand in w from p on; that q do is known.
fn run(w: &[u8], p: usize, text: &[u8], q: usize) -> usize
    requires { (p + length text.now ≤ length w.now) × (q ≤ length text.now) × Stand w.now text.now p q }
    ensures { Ran w.now text.now p q result }
{
    for i in q..text.len() {
        if w[p + i] != text[i] {
            return i;
        }
    }
    text.len()
}

// For each number of text's first bytes, the least number of places by which they can be moved on over themselves. In the loop q of
// them stand in text from p on, and no move smaller than p is left for the p + q bytes up to there and the next. (A while, since the step
// is read from the table.)
fn moves(text: &[u8]) -> [u16; 930]
    requires { 1 ≤ length text.now }
    ensures { Filled text.now result (min (length text.now) 929) }
{
    let end = text.len().min(REACH);
    let mut table = [1u16; 930];
    let mut p = 1;
    let mut q = 0;
    while p + q < end {
        let j = p + q;
        if text[j] == text[q] {
            q += 1;
            table[j + 1] = p as u16;
        } else if q == 0 {
            p += 1;
            table[p] = p as u16;
        } else {
            let s = table[q] as usize;
            p += s;
            q -= s;
        }
    }
    table
}

// Whether text stands in w at `from`, where its first byte does, or further on. Where some of its bytes stand at a place and the next
// does not, the place moves on to the next at which those bytes can stand. They are not looked at again, so that a string of repeats
// costs no more than another. (A while, since the step is read from the table.)
fn onward(w: &[u8], from: usize, text: &[u8]) -> bool
    requires { (from + length text.now ≤ length w.now) × (1 ≤ length text.now) × Stand w.now text.now from 1 }
    ensures { result ≡ occurs_in text.now (drop from w.now) }
{
    let m = text.len();
    let last = w.len() - m;
    let table = moves(text);
    let mut p = from;
    let mut q = 1;
    while p <= last {
        let r = run(w, p, text, q);
        if r == m {
            return true;
        }
        let c = r.min(REACH);
        let s = table[c] as usize;
        p += s;
        q = c - s;
        if q == 0 {
            p = seek(w, p, text, r);
            q = 1;
        }
    }
    false
}

// Whether text stands anywhere in w. A place is tried where its first and its last byte stand, and after a try in vain where its first
// byte and the one that failed do: that passes over most windows. The table of moves costs more, so it is made only after some tries.
pub fn occurs(w: &[u8], text: &[u8]) -> bool
    ensures { result ≡ occurs_in text.now w.now }
{
    let n = w.len();
    let m = text.len();
    if m == 0 {
        return true;
    }
    if n < m {
        return false;
    }
    let last = n - m;
    let mut at = seek(w, 0, text, m - 1);
    for _try in 0..TRIES {
        if last < at {
            return false;
        }
        let r = run(w, at, text, leap(w, at, text, 1));
        if r == m {
            return true;
        }
        at = seek(w, at + 1, text, r);
    }
    if last < at {
        return false;
    }
    onward(w, at, text)
}

// The window of a record: from offset on, for number bytes (0: to the record's end), cut at the record's end.
pub fn window(record: &[u8], offset: usize, number: usize) -> &[u8]
    ensures { result.now ≡ window_of «record».now offset number }
{
    let rest = &record[offset.min(record.len())..];
    if number == 0 {
        return rest;
    }
    &rest[..number.min(rest.len())]
}

// Whether text stands anywhere in the window of a record.
pub fn matches(record: &[u8], offset: usize, number: usize, text: &[u8]) -> bool
    ensures { result ≡ matches_in «record».now offset number text.now }
{
    occurs(window(record, offset, number), text)
}
