// The data of SEARCH RECORD: the numbers of the records that match, and the reply that lists them, stored whole or not at all.
#![tactic(auto)]

ghost use Rattle.std.specs.Prelude.{◌≡◌, ◌+◌, ◌*◌, ◌≤◌, length, get_or, take, leb};
ghost use Rattle.std.proofs.lemmas.List.Edits.{sets};
ghost use Rattle.base.specs.Bytes.{put};
ghost use Rattle.objects_writer.specs.Writer.{put_end};
ghost use Rattle.store_records.specs.Body.{records};
ghost use Rattle.machine_reply_search.specs.Found.{hits, kept, listed, reply};
ghost use Rattle.machine_reply_search.specs.Loops.{found_length};

use store_records::body;

// The most records of a file, and so the most numbers.
const MOST: usize = 254;

// The first n of the numbers.
#[derive(Clone, Copy)]
pub struct Hits {
    pub n: usize,
    pub numbers: [u8; 254],
}

impl Hits {
    // These n.
    fn numbers(&self) -> &[u8]
        ensures { result.now ≡ take self.now.n self.now.numbers }
    {
        base::part(&self.numbers, 0, self.n)
    }
}

// The numbers of the first 254 records that match, ascending; only the first of them where one is set.
pub fn search(body: &[u8], offset: usize, number: usize, text: &[u8], one: bool) -> Hits
    ensures { (take result.n result.numbers ≡ hits (take 254 (records body.now)) offset number text.now one) × (result.n ≡ length (hits (take 254 (records body.now)) offset number text.now one)) × (result.numbers ≡ kept (hits (take 254 (records body.now)) offset number text.now one)) }
{
    let end = body::count(body).min(MOST);
    let mut numbers = [0u8; 254];
    let mut n = 0;
    let mut at = 2;
    for i in 0..end {
        let found = machine_window::matches(body::record_at(body, at), offset, number, text);
        at = body::behind(body, at);
        if found {
            numbers[n] = (i + 1) as u8;
            n += 1;
            if one {
                return Hits { n, numbers };
            }
        }
    }
    Hits { n, numbers }
}

// How long the reply is for a file reference of so many bytes and n numbers.
fn found_length(file: usize, n: usize) -> usize
    requires { (file ≤ 127) × (n ≤ 254) }
    ensures { result ≡ found_length file n }
{
    let inner = 2 + file + 3 * n;
    if inner < 0x80 {
        return 3 + inner;
    }
    if inner < 0x100 {
        return 4 + inner;
    }
    5 + inner
}

// Stores `02 01 nn` for each number, from `at` on.
fn put_numbers(out: &mut [u8], at: usize, numbers: &[u8])
    requires { at + 3 * length numbers.now ≤ length out.old }
    ensures { out.new ≡ sets out.old at (listed numbers.now) }
{
    for (k, number) in numbers.iter().enumerate() {
        base::put(out, at + 3 * k, &[0x02, 0x01, *number]);
    }
}

// Stores the reply for a file reference and some numbers, where there is room for all of it.
fn put_reply(out: &mut [u8], file: &[u8], numbers: &[u8]) -> usize
    requires { length numbers.now ≤ 254 }
    ensures { (result ≡ put_end out.old 0 (reply file.now numbers.now)) × (out.new ≡ put out.old 0 (reply file.now numbers.now)) }
{
    if 127 < file.len() {
        return 0;
    }
    let n = numbers.len();
    let len = found_length(file.len(), n);
    if out.len() < len {
        return 0;
    }
    let inside = objects_writer::put_head(out, 0, 0x7F76, 2 + file.len() + 3 * n);
    let reference = objects_writer::put_head(out, inside, 0x51, file.len());
    base::put(out, reference, file);
    put_numbers(out, reference + file.len(), numbers);
    len
}

// Stores the reply for a file reference and what a search found at the start of out, where there is room for all of it; nothing for a
// reference above 127 bytes. Answers its length.
pub fn put_found(out: &mut [u8], file: &[u8], h: Hits) -> usize
    ensures { (result ≡ put_end out.old 0 (reply file.now (take h.n h.numbers))) × (out.new ≡ put out.old 0 (reply file.now (take h.n h.numbers))) }
{
    put_reply(out, file, h.numbers())
}

// Whether the reply for a file reference and what a search found has at most ne bytes.
pub fn reply_fits(file: &[u8], h: Hits, ne: usize) -> bool
    ensures { result ≡ leb (length (reply file.now (take h.n h.numbers))) ne }
{
    if 127 < file.len() {
        return true;
    }
    found_length(file.len(), h.numbers().len()) <= ne
}

// The number of the first match, which becomes the current record; 0 where nothing was found.
pub fn first(h: Hits) -> usize
    ensures { result ≡ get_or (take h.n h.numbers) 0 0 }
{
    base::byte(h.numbers(), 0)
}
