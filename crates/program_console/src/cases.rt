// What the test programs share. Each reads its cases from standard input, one behind the other, and answers each by a line.
ghost use Rattle.std.specs.Prelude.{◌≡◌, ◌-◌, ◌<◌, length, leb};
ghost use Rattle.base.specs.Choice.{if_else};

use crate::{warn, word};
use std::alloc::AllocError;
use std::io::{Stderr, Stdout};

// Why no more cases are answered: the next one is torn or unknown, or memory runs out.
#[derive(Clone, Copy)]
pub enum Stop {
    Torn,
    OutOfMemory,
}

impl From<AllocError> for Stop {
    fn from(_e: AllocError) -> Stop {
        Stop::OutOfMemory
    }
}

// A program's cases, with what each leaves to those behind it.
pub trait Cases<'a> {
    // Answers the case that s begins with, and gives what stands behind it.
    fn answer(&mut self, s: &'a [u8]) -> Result<&'a [u8], Stop>;

    // Hears that memory has run out, so that the program's exit status says so. (`answer_all` and `answer_or_warn` do not answer it: they print, and a
    // public function that answers something owes a theorem that its contract determines the answer.)
    fn fail(&mut self);
}

// Where the next case of s begins, when the one at `at` leaves `left` bytes behind it. A case that is torn or unknown leaves no fewer
// bytes than stood there: then a line says so, and the answer is the end of s.
pub fn next(out: Stdout, s: &[u8], at: usize, left: usize) -> usize
    ensures { (result ≡ if_else (leb (length s.now - at) left) (length s.now) (length s.now - left)) × (at < length s.now → at < result) }
{
    let n = s.len();
    if n.saturating_sub(at) <= left {
        word(out, b"a torn or unknown case\n");
        return n;
    }
    n - left
}

// Answers the cases of s in turn, up to the first that is torn or unknown, or until memory runs out, which `fail` hears. The loop stays a `while`: a
// case says how long it is. (`answer_or_warn` has a loop of its own: with one that both call, the stack of test_lower grows by 16 bytes.)
pub fn answer_all<'a, C: Cases<'a> + Drop>(out: Stdout, s: &'a [u8], mut cases: C)
    ensures { Unit {0} }
{
    let mut at = 0;
    while at < s.len() {
        let rest = base::part(s, at, s.len());
        let left = cases.answer(rest).map(|behind| behind.len());
        if let Err(Stop::OutOfMemory) = left {
            cases.fail();
            return;
        }
        at = next(out, s, at, left.unwrap_or(rest.len()));
    }
}

// The same, and where memory runs out, a line on standard error says so: that case is not told to be torn. The loop stays a `while`, as above.
pub fn answer_or_warn<'a, C: Cases<'a> + Drop>(out: Stdout, err: Stderr, s: &'a [u8], mut cases: C)
    ensures { Unit {0} }
{
    let mut at = 0;
    while at < s.len() {
        let rest = base::part(s, at, s.len());
        let left = match cases.answer(rest) {
            Ok(behind) => behind.len(),
            Err(Stop::Torn) => rest.len(),
            Err(Stop::OutOfMemory) => {
                warn(err, b"out of memory\n");
                cases.fail();
                return;
            }
        };
        at = next(out, s, at, left);
    }
}

#[cfg(test)]
mod tests {
    use super::*;

    // Cases of two bytes, the first a digit. `digits` has those of the cases answered; an 8 is unknown, and at a 9 memory runs out.
    #[derive(Drop)]
    struct Pairs<'c> {
        digits: &'c mut u32,
        failed: &'c mut bool,
    }

    impl<'a> Cases<'a> for Pairs<'_> {
        fn answer(&mut self, s: &'a [u8]) -> Result<&'a [u8], Stop> {
            match s {
                [8, ..] => Err(Stop::Torn),
                [9, ..] => Err(Stop::OutOfMemory),
                [digit, _, behind @ ..] => {
                    *self.digits = self.digits.wrapping_mul(10).wrapping_add(u32::from(*digit));
                    Ok(behind)
                }
                _ => Err(Stop::Torn),
            }
        }

        fn fail(&mut self) {
            *self.failed = true;
        }
    }

    // The digits of the cases of s that are answered, and whether the program hears that memory has run out.
    fn seen(rt: HostRuntime, s: &[u8], warned: bool) -> (u32, bool) {
        let (mut digits, mut failed) = (0, false);
        let pairs = Pairs {
            digits: &mut digits,
            failed: &mut failed,
        };
        if warned {
            answer_or_warn(rt.stdout(), rt.stderr(), s, pairs);
        } else {
            answer_all(rt.stdout(), s, pairs);
        }
        (digits, failed)
    }

    // What no contract says: the cases are answered in turn, none behind one that is torn or unknown, and none behind one where memory runs out.
    #[test]
    fn answers_cases_in_turn(rt: HostRuntime) {
        let inputs: [(&[u8], (u32, bool)); 6] = [
            (b"", (0, false)),
            (&[1, 0, 2, 0, 3, 0], (123, false)),
            (&[1, 0, 2, 0, 3], (12, false)),
            (&[1, 0, 8, 0, 3, 0], (1, false)),
            (&[1, 0, 9, 0, 3, 0], (1, true)),
            (&[9], (0, true)),
        ];
        for (s, want) in inputs {
            assert_eq!(rt; seen(rt, s, false), want);
            assert_eq!(rt; seen(rt, s, true), want);
        }
    }
}
