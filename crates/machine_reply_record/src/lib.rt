// The data of READ RECORD: the records with some numbers, joined. What is asked for, by whom and of which file is for the layer above to
// decide.
#![tactic(auto)]

ghost use Rattle.std.specs.Prelude.{◌≡◌, ◌+◌, ◌-◌, ◌≤◌, length, take, ltb};
ghost use Rattle.std.proofs.lemmas.List.Edits.{sets};
ghost use Rattle.base.specs.Choice.{if_else};
ghost use Rattle.store_records.specs.Body.{records};
ghost use Rattle.machine_reply_record.specs.Joined.{records_data};

use store_records::body;

// The most bytes that are returned.
const CUT: usize = 2048;

// Stores a record behind the first len bytes, as far as the cut allows. Answers how many bytes there are then.
fn put_cut(out: &mut [u8], len: usize, record: &[u8]) -> usize
    requires { (len ≤ 2048) × (2048 ≤ length out.old) }
    ensures { (result ≡ len + length (take (2048 - len) «record».now)) × (out.new ≡ sets out.old len (take (2048 - len) «record».now)) }
{
    let piece = base::part(record, 0, CUT - len);
    base::put(out, len, piece);
    len + piece.len()
}

// Stores the records with the numbers first to last at the start of out, one behind the other, cut at 2,048 bytes, where out has as many.
// Answers how many bytes. It ends with the last record, or as soon as the 2,048 bytes are there.
pub fn put_records(body: &[u8], first: usize, last: usize, out: &mut [u8]) -> usize
    ensures { (result ≡ if_else (ltb (length out.old) 2048) 0 (length (records_data (records body.now) first last))) × (out.new ≡ if_else (ltb (length out.old) 2048) out.old (sets out.old 0 (records_data (records body.now) first last))) }
{
    if out.len() < CUT {
        return 0;
    }
    let end = last.min(body::count(body));
    let start = first.saturating_sub(1).min(end);
    let mut at = body::place(body, start);
    let mut len = 0;
    for _n in start..end {
        if CUT <= len {
            return len;
        }
        len = put_cut(out, len, body::record_at(body, at));
        at = body::behind(body, at);
    }
    len
}
