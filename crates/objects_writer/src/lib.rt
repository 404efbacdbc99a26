// Writing data objects: all of an object's bytes are stored, or none of them.
#![tactic(auto)]

ghost use Rattle.std.specs.Prelude.{◌≡◌, ◌+◌, ◌≤◌, length, ltb};
ghost use Rattle.std.proofs.lemmas.List.Edits.{sets};
ghost use Rattle.base.specs.Choice.{if_else};
ghost use Rattle.base.specs.Bytes.{put};
ghost use Rattle.objects_writer.specs.Number.{bytes_of, digits, shortest};
ghost use Rattle.objects_writer.specs.Writing.{tlv};
ghost use Rattle.objects_writer.specs.Writer.{head_bytes, put_end};
ghost use Rattle.objects_writer.specs.Fitting.{longest_within};

// How many bytes n takes: the fewest, and at least one. The highest set bit says it; zero has none.
pub fn fewest(n: usize) -> usize
    ensures { result ≡ bytes_of n }
{
    if n == 0 {
        return 1;
    }
    ((71 - usize::leading_zeros(n)) / 8) as usize
}

// How long a value can be, of at most `most` bytes, whose object has at most `limit`. The tag has one byte; the length has one byte
// up to 127, two up to 255, and then three.
pub fn longest_within(limit: u16, most: usize) -> usize
    ensures { result ≡ longest_within limit most }
{
    let n = limit as usize;
    if n < 131 {
        return most.min(n.saturating_sub(2).min(127));
    }
    if n < 260 {
        return most.min((n - 3).min(255));
    }
    most.min(n - 4)
}

// Stores b from `at` on, where all of it fits. Answers the place behind what is stored.
fn store(out: &mut [u8], at: usize, b: &[u8]) -> usize
    ensures { (result ≡ put_end out.old at b.now) × (out.new ≡ put out.old at b.now) }
{
    if base::put(out, at, b) {
        return at + b.len();
    }
    at
}

// How many of a tag's two bytes are not written: a tag below 256 is one byte.
fn unwritten(tag: usize) -> usize
    ensures { (result ≡ if_else (ltb tag 256) 1 0) × (result ≤ 1) }
{
    if tag < 256 {
        return 1;
    }
    0
}

// Writes the tag and the length of an object. Answers the place behind them.
pub fn put_head(out: &mut [u8], at: usize, tag: usize, len: usize) -> usize
    ensures { (result ≡ put_end out.old at (head_bytes tag len)) × (out.new ≡ put out.old at (head_bytes tag len)) }
{
    if 0xFFFF < tag {
        return at;
    }
    if 0xFFFF < len {
        return at;
    }
    let tag_high = (tag / 256) as u8;
    let tag_low = (tag % 256) as u8;
    let len_high = (len / 256) as u8;
    let len_low = (len % 256) as u8;
    let k = unwritten(tag);
    if len < 0x80 {
        let short = [tag_high, tag_low, len_low];
        return store(out, at, &short[k..]);
    }
    if len < 0x100 {
        let one = [tag_high, tag_low, 0x81, len_low];
        return store(out, at, &one[k..]);
    }
    let two = [tag_high, tag_low, 0x82, len_high, len_low];
    store(out, at, &two[k..])
}

// Writes the k low bytes of n from `at` on, the highest first: so the last is stored first.
fn put_digits(out: &mut [u8], at: usize, k: usize, n: usize)
    requires { at + k ≤ length out.old }
    ensures { out.new ≡ sets out.old at (digits k n) }
{
    let mut rest = n;
    for i in (0..k).rev() {
        out[at + i] = (rest % 256) as u8;
        rest /= 256;
    }
}

// Writes the object with this tag whose value is n in the fewest bytes. Answers the place behind it.
pub fn put_number(out: &mut [u8], at: usize, tag: u8, n: usize) -> usize
    ensures { (result ≡ put_end out.old at (tlv tag (shortest n))) × (out.new ≡ put out.old at (tlv tag (shortest n))) }
{
    let k = fewest(n);
    if out.len() < at {
        return at;
    }
    if out.len() - at < 2 + k {
        return at;
    }
    out[at] = tag;
    out[at + 1] = k as u8;
    put_digits(out, at + 2, k, n);
    at + 2 + k
}
