// Opens the recorded layout cases, one behind the other on standard input, and prints one line: how many there are, how
// many were refused by 2, 3 and 4, how many were opened, and how many of these verdicts are not the recorded ones. A
// case is four words (the file's length, the root name's length, the verdict, bytes used), the file, and the root name.
#![tactic(auto)]

use ast::open::{Refusal, open};
use cases::{judge, next_head, next_part};
use std::io;

// More cases than any list has: what stands behind so many is not read.
const MOST_CASES: u64 = 100000;

// What is compared with the recorded verdict of a file that has none: no opening answers it.
const NO_VERDICT: u32 = 1;

// What opening a file answers: the refusal's number, or 0.
// By number, as verdicts are recorded: read as a refusal, a word that is none's would pass for an opened file.
fn number(refusal: Option<Refusal>) -> u32 {
    match refusal {
        Some(refusal) => refusal.number(),
        None => 0,
    }
}

// How many files have each verdict.
#[derive(Clone, Copy, Default)]
struct Verdicts {
    no_form: u64,
    over_most: u64,
    broken: u64,
    opened: u64,
}

impl Verdicts {
    fn count(&mut self, refusal: Option<Refusal>) {
        let files = match refusal {
            Some(Refusal::NoForm) => &mut self.no_form,
            Some(Refusal::OverMost) => &mut self.over_most,
            Some(Refusal::Broken) => &mut self.broken,
            None => &mut self.opened,
        };
        *files = files.saturating_add(1);
    }
}

// A file that is not all there or longer than the buffer has no verdict.
fn main(rt: HostRuntime) -> io::Result<()> {
    let mut found = Verdicts::default();
    let mut left = MOST_CASES;
    let tally = judge(&mut rt.stdin(), |input| {
        left = left.checked_sub(1)?;
        let [length, _, recorded, _]: [u32; 4] = next_head(input)?;
        let mut buffer = [0; 65536];
        let Some(file) = next_part(input, length, &mut buffer) else {
            return Some(recorded == NO_VERDICT);
        };
        let refusal = open(file).err();
        found.count(refusal);
        Some(number(refusal) == recorded)
    });
    println!(rt;
        "cases {} refused-2 {} refused-3 {} refused-4 {} opened {} wrong {}",
        tally.cases, found.no_form, found.over_most, found.broken, found.opened, tally.wrong
    )
}
