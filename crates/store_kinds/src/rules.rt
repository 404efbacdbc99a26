// The rule table of the six record files, the kinds of all files, and what a body must be by its kind.
ghost use Rattle.std.specs.Prelude.{◌≡◌, ℕ, Bool};
ghost use Rattle.store_kinds.specs.Rules.{has_key, rule_of, is_biometrics, biometrics_kind, application_of, there, present_by, kind_ok};

use crate::biometrics;
use store_records::body;

pub const TRAVEL: usize = 1;

pub const VISA: usize = 2;

pub const BIOMETRICS: usize = 3;

#[derive(Clone, Copy)]
pub struct Rule {
    pub kind: usize,
    pub application: usize,
    pub id: usize,
    pub short: usize,
    pub longest: usize,
    pub most: usize,
}

// EntryRecords, ExitRecords and travel certificates; VisaRecords and visa certificates; biometrics certificates.
pub const RULES: [Rule; 6] = [
    Rule {
        kind: 0x0101,
        application: TRAVEL,
        id: 0x0101,
        short: 0x01,
        longest: 391,
        most: 254,
    },
    Rule {
        kind: 0x0102,
        application: TRAVEL,
        id: 0x0102,
        short: 0x02,
        longest: 391,
        most: 254,
    },
    Rule {
        kind: 0x011A,
        application: TRAVEL,
        id: 0x011A,
        short: 0x1A,
        longest: 929,
        most: 254,
    },
    Rule {
        kind: 0x0203,
        application: VISA,
        id: 0x0103,
        short: 0x03,
        longest: 512,
        most: 254,
    },
    Rule {
        kind: 0x021A,
        application: VISA,
        id: 0x011A,
        short: 0x1A,
        longest: 929,
        most: 254,
    },
    Rule {
        kind: 0x031A,
        application: BIOMETRICS,
        id: 0x011A,
        short: 0x1A,
        longest: 929,
        most: 64,
    },
];

// What a rule is looked up by: a kind; an application with an id, or with a short id.
#[derive(Clone, Copy)]
pub enum Key {
    Kind(usize),
    Id(usize, usize),
    Short(usize, usize),
}

fn has_key(key: Key, r: Rule) -> bool
    ensures { result ≡ has_key key r }
{
    match key {
        Key::Kind(kind) => r.kind == kind,
        Key::Id(application, id) => r.application == application && r.id == id,
        Key::Short(application, short) => r.application == application && r.short == short,
    }
}

// The rule that a key finds. The table is laid out once, before its rows are tried.
pub fn find_rule(key: Key) -> Option<Rule>
    ensures { result ≡ rule_of key }
{
    for rule in &RULES {
        if has_key(key, *rule) {
            return Some(*rule);
        }
    }
    None
}

// Whether a kind is that of a biometrics file.
#[tactic(auto, unfolding(crate::specs::Rules::is_biometrics, base::specs::Choice::all_of))]
pub fn is_biometrics(kind: usize) -> bool
    ensures { result ≡ is_biometrics kind }
{
    (0x0401..=0x0440).contains(&kind)
}

// The kind of the section that holds Biometrics n.
pub fn biometrics_kind(n: u8) -> usize
    ensures { result ≡ biometrics_kind n }
{
    0x0400 + usize::from(n)
}

// The application whose section a kind is.
#[tactic(auto, unfolding(crate::specs::Rules::application_of))]
pub fn application_of(kind: usize) -> usize
    ensures { result ≡ application_of kind }
{
    if kind < 0x0200 {
        TRAVEL
    } else if kind < 0x0300 {
        VISA
    } else {
        BIOMETRICS
    }
}

// What tells which kinds are there: the sections of an image, or the rows of a list.
pub trait Kinds {
    ghost kinds: { Self → ℕ → Bool };

    // Whether a kind is there.
    fn has(&self, kind: usize) -> bool
        ensures { result ≡ kinds self.now kind };
}

// Whether the record file of a rule is there, where the rule is one of the application's.
#[tactic(auto, unfolding(crate::specs::Rules::there))]
fn there<K: Kinds>(card: &K, application: usize, r: Rule) -> bool
    ensures { result ≡ there (K.kinds card.now) application r }
{
    r.application != application || card.has(r.kind)
}

// Whether an application is present, which it is when all its record files are there.
#[tactic(auto, unfolding(crate::specs::Rules::rules, crate::specs::Rules::present_by, base::specs::Choice::all_of))]
pub fn present_by<K: Kinds>(card: &K, application: usize) -> bool
    ensures { result ≡ present_by (K.kinds card.now) application }
{
    if !(TRAVEL..=BIOMETRICS).contains(&application) {
        return false;
    }
    for rule in &RULES {
        if !there(card, application, *rule) {
            return false;
        }
    }
    true
}

// Whether a kind is known and a body is one of that kind.
#[tactic(auto, unfolding(crate::specs::Rules::kind_ok))]
pub fn kind_ok(kind: usize, body: &[u8]) -> bool
    ensures { result ≡ kind_ok kind body.now }
{
    match find_rule(Key::Kind(kind)) {
        Some(r) => body::well_formed(body, r.longest, r.most),
        None => is_biometrics(kind) && biometrics::well_formed(body),
    }
}
