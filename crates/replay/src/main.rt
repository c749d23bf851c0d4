// Builds the recorded cases, one behind the other on standard input, and prints one line: how many there are, and how
// many of them are wrong. Right is: with a long area, with one as long as the answer, with one that is a byte short and
// with an empty one, each filled with a byte other than 0, the build answers the bytes used or the refusal that is
// due, the area begins with the stored answer, and every byte behind it is 0. A case is four words (the file's length,
// the root name's length, the number, the bytes used), the file, the root name, and the used part of the area.
#![tactic(auto)]

use builder::build::build;
use builder::refusal::Refused;
use cases::{Tally, judge, next_head, next_part};
use std::io;
use std::io::Read;

// Longer than any answer.
const LONG: usize = 56000;

// More cases than any list has: what stands behind so many is not read.
const MOST_CASES: u64 = 100000;

// A file and a root name, and what is recorded of their build: a refusal's number or 0, and these bytes.
// The number is the case's word as it stands: a Result with a slice in it, in a struct, is more than the borrow check
// covers.
#[derive(Clone, Copy)]
struct Case<'a> {
    file: &'a [u8],
    root: &'a [u8],
    number: u32,
    answer: &'a [u8],
}

impl Case<'_> {
    // Whether a build into an area of a length gives what is due, with zeros behind the answer.
    fn gives(&self, room: usize, due: Result<&[u8], u32>) -> bool {
        let mut space = [7; LONG];
        let Some(area) = space.get_mut(..room) else {
            return false;
        };
        let (same, answer): (bool, &[u8]) = match (build(self.file, self.root, area), due) {
            (Ok(used), Ok(answer)) => (used == answer.len(), answer),
            (Err(refused), Err(number)) => (refused.number() == number, b""),
            _ => return false,
        };
        same && area.starts_with(answer) && area[answer.len()..].iter().all(|byte| *byte == 0)
    }

    fn is_right(&self) -> bool {
        let exact = self.answer.len();
        if self.number != 0 {
            let refused = Err(self.number);
            return exact == 0 && self.gives(LONG, refused) && self.gives(0, refused);
        }
        let (built, short) = (Ok(self.answer), Err(Refused::ShortArea.number()));
        exact != 0
            && self.gives(LONG, built)
            && self.gives(exact, built)
            && self.gives(exact - 1, short)
            && self.gives(0, short)
    }
}

// Whether the case with this head is right, none where it is not all there or a part is longer than its buffer.
fn is_right(input: &mut impl Read, [files, roots, number, used]: [u32; 4]) -> Option<bool> {
    let mut file = [0; 65536];
    let mut root = [0; 4096];
    let mut answer = [0; 65536];
    let case = Case {
        file: next_part(input, files, &mut file)?,
        root: next_part(input, roots, &mut root)?,
        number,
        answer: next_part(input, used, &mut answer)?,
    };
    Some(case.is_right())
}

fn main(rt: HostRuntime) -> io::Result<()> {
    let mut left = MOST_CASES;
    let Tally { cases, wrong } = judge(&mut rt.stdin(), |input| {
        left = left.checked_sub(1)?;
        let head = next_head(input)?;
        Some(is_right(input, head) == Some(true))
    });
    println!(rt; "{cases} cases, {wrong} wrong")
}
