// One reader for all data fields: it goes by the rows of a form. A row is an object: its tag, the number of rows that stand inside
// it, 0 where a plain value may be absent, the fewest and the most bytes of a plain value.
ghost use Rattle.std.specs.Prelude.{◌≡◌, ◌+◌, ◌≤◌, ◌<◌, length};
ghost use Rattle.objects_reader.specs.Form.{form_of, cut_of, fresh, spoilt, noted, read_form, read_all, read_of};
ghost use Rattle.objects_reader.specs.Loops.{value_step, missing_of, first_object};

use super::head::{HeadFault, header};

// What is wrong with an object: another tag or none stands there, its length is none that fits, or it lies too deep. [D9]
#[derive(Clone, Copy)]
pub enum Fault {
    Tag,
    Length,
    Depth,
}

// What stands first in a part: nothing more, a fault, a plain value, or a value that is objects again, with the row at which what
// follows goes on; or nothing where a value may be absent. Of the five only one is a fault, so a Result would still hold an enum of four.
#[derive(Clone, Copy)]
pub enum Step {
    Done,
    Bad(Fault),
    Plain(usize, usize),
    Nested(usize, usize, usize),
    Absent,
}

// Where a value stands in the data: the len bytes from at on.
#[derive(Clone, Copy)]
pub struct Span {
    pub at: usize,
    pub len: usize,
}

// What a reading found: the first fault with its place, and the places of the values read so far, which are n. [D9]
#[derive(Clone, Copy)]
pub struct Reading {
    pub fault: Option<Fault>,
    pub at: usize,
    pub n: usize,
    pub places: [Span; 13],
}

// Before anything is read.
fn fresh() -> Reading
    ensures { result ≡ fresh }
{
    Reading {
        fault: None,
        at: 0,
        n: 0,
        places: [Span { at: 0, len: 0 }; 13],
    }
}

// Notes a fault and its place.
fn spoil(r: &mut Reading, fault: Fault, at: usize)
    ensures { r.new ≡ spoilt r.old fault at }
{
    r.fault = Some(fault);
    r.at = at;
}

// Notes the place of one more value, where there is room for it. The reading is lent: its list is too long to be copied for each value.
fn note(r: &mut Reading, start: usize, len: usize)
    ensures { r.new ≡ noted r.old start len }
{
    if r.n < 13 {
        r.places[r.n] = Span { at: start, len };
        r.n += 1;
    }
}

// Where the rows of what stands inside the first object end.
fn cut_at(form: &[[u16; 5]]) -> usize
    requires { 1 ≤ length form.now }
    ensures { result ≡ cut_of form.now }
{
    let inner = usize::from(form[0][1]);
    if inner <= form.len() - 1 {
        1 + inner
    } else {
        form.len()
    }
}

// What the first row of a form makes of a value of len bytes from start on.
fn kind(form: &[[u16; 5]], start: usize, len: usize) -> Step
    requires { 1 ≤ length form.now }
    ensures { result ≡ value_step form.now start len }
{
    if form[0][1] == 0 {
        if usize::from(form[0][3]) <= len && len <= usize::from(form[0][4]) {
            Step::Plain(start, len)
        } else {
            Step::Bad(Fault::Length)
        }
    } else {
        Step::Nested(start, len, cut_at(form))
    }
}

// What it means that the first row's tag is not there.
fn missing(form: &[[u16; 5]]) -> Step
    requires { 1 ≤ length form.now }
    ensures { result ≡ missing_of form.now }
{
    if form[0][1] == 0 && form[0][2] == 0 {
        Step::Absent
    } else {
        Step::Bad(Fault::Tag)
    }
}

// What stands first in s by the rows of its form: every test of the reading is here.
#[tactic(auto, unfolding(crate::specs::Loops::first_object))]
fn first(s: &[u8], form: &[[u16; 5]], depth: usize) -> Step
    ensures { result ≡ first_object form.now depth s.now }
{
    if form.is_empty() {
        return if s.is_empty() {
            Step::Done
        } else {
            Step::Bad(Fault::Tag)
        };
    }
    if depth == 0 {
        return Step::Bad(Fault::Depth);
    }
    match header(s, form[0][0]) {
        Ok((start, len)) => kind(form, start, len),
        Err(HeadFault::NoTag) => missing(form),
        Err(HeadFault::NoLength) => Step::Bad(Fault::Length),
    }
}

// Reads s, the value of an object or the whole data, by the rows of its form: a turn for each object of this level, and a call for
// what stands inside one, with one less of the remaining depth. base is where s starts in the data. The reading is lent on to the calls.
fn objects(s: &[u8], form: &[[u16; 5]], base: usize, depth: usize, r: &mut Reading)
    requires { base + length s.now < 18446744073709551616 }
    ensures { r.new ≡ read_form (form_of form.now) depth base s.now r.old }
{
    // Each step is read from the data: no range counts these two.
    let mut at = 0;
    let mut row = 0;
    loop {
        match first(&s[at..], &form[row..], depth) {
            Step::Done => return,
            Step::Bad(fault) => {
                spoil(r, fault, base + at);
                return;
            }
            Step::Plain(start, len) => {
                note(r, base + at + start, len);
                at = at + start + len;
                row = row + 1;
            }
            Step::Nested(start, len, cut) => {
                let from = at + start;
                let to = from + len;
                let inner = row + 1;
                let next = row + cut;
                objects(&s[from..to], &form[inner..next], base + from, depth - 1, r);
                if r.fault.is_some() {
                    return;
                }
                at = to;
                row = next;
            }
            Step::Absent => {
                note(r, 0, 0);
                row = row + 1;
            }
        }
    }
}

// Reads data by the rows of its form, four objects deep at most.
pub fn read_all(s: &[u8], form: &[[u16; 5]]) -> Reading
    ensures { result ≡ read_all (form_of form.now) s.now }
{
    let mut r = fresh();
    objects(s, form, 0, 4, &mut r);
    r
}

// The same for the data of a command: more than 65,535 bytes are a wrong length.
#[tactic(auto, unfolding(crate::specs::Form::read_by))]
pub fn read(s: &[u8], form: &[[u16; 5]]) -> Reading
    ensures { result ≡ read_of form.now s.now }
{
    if s.len() <= 65535 {
        read_all(s, form)
    } else {
        let mut r = fresh();
        spoil(&mut r, Fault::Length, 0);
        r
    }
}
