// Judges recorded areas, one behind the other on standard input, and prints one line: how many there are, how many keep
// their layout, how many break it, and how many of these verdicts are not the recorded ones. A case is two words, the
// area's length and 1 where it is to keep its layout, else 0, and the area.
#![tactic(auto)]

use area::layout::MOST_KIND;
use cases::{Tally, judge, next_head, next_part};
use keeping::kept::keeps_layout;
use std::io;

// More cases than any list has: what stands behind so many is not read.
const MOST_CASES: u64 = 1000000000;

// An area that is not all there or longer than the buffer has no verdict, and is wrong.
fn main(rt: HostRuntime) -> io::Result<()> {
    let mut kept = 0u64;
    let mut broken = 0u64;
    let mut left = MOST_CASES;
    let Tally { cases, wrong } = judge(&mut rt.stdin(), |input| {
        left = left.checked_sub(1)?;
        let [length, recorded]: [u32; 2] = next_head(input)?;
        let mut buffer = [0; 65536];
        let Some(area) = next_part(input, length, &mut buffer) else {
            return Some(false);
        };
        let keeps = keeps_layout(area, MOST_KIND);
        if keeps {
            kept = kept.saturating_add(1);
        } else {
            broken = broken.saturating_add(1);
        }
        // A case has words only: 1 where the layout is kept.
        Some(keeps == (recorded == 1))
    });
    println!(rt; "areas {cases} kept {kept} broken {broken} wrong {wrong}")
}
