// Case files: cases one behind the other, each a head of words, the low byte first, and parts whose lengths the head
// tells.
#![tactic(auto)]

ghost use Rattle.std.specs.Prelude.{◌≡◌, ◌<◌, IfSome, IsNone, [], ◌∷◌, length};
ghost use Rattle.std.specs.Io.KnownBytes.{Consumes};
ghost use Rattle.cases.specs.Judged.{Judged};
ghost use Rattle.cases.specs.Words.{TakesWords};

use std::io::Read;

// How many cases there were, and how many of them were wrong.
#[derive(Drop)]
pub struct Tally {
    pub cases: u64,
    pub wrong: u64,
}

// The next word, none where it is not all there.
fn next_word<R: Read>(input: &mut R) -> Option<u32>
    ensures { IfSome result (λ word.
        TakesWords (R.remaining input.old) (R.remaining input.new) (word ∷ [])) }
{
    let mut bytes = [0; 4];
    input.read_exact(&mut bytes).ok()?;
    Some(u32::from_le_bytes(bytes))
}

// The head of the next case, none where it is not all there.
pub fn next_head<R: Read, const N: usize>(input: &mut R) -> Option<[u32; N]>
    ensures { IfSome result (TakesWords (R.remaining input.old) (R.remaining input.new)) }
{
    let mut head = [0; N];
    for word in &mut head {
        *word = next_word(input)?;
    }
    Some(head)
}

// The next part of a case, none where it is not all there or longer than the buffer.
pub fn next_part<'a, R: Read>(input: &mut R, size: u32, buffer: &'a mut [u8]) -> Option<&'a [u8]>
    ensures size { IfSome result (λ part. length part.now ≡ size) }
    ensures bytes { IfSome result (λ part.
        Consumes (R.remaining input.old) (R.remaining input.new) part.now) }
    ensures longer { length buffer.entry.now < size → IsNone result }
{
    let part = buffer.get_mut(..size as usize)?;
    input.read_exact(part).ok()?;
    Some(part)
}

// Goes over the cases until the input ends: `next` reads the next one and says whether it is right, and none where
// there is no other.
pub fn judge<R: Read, F: FnMut(&mut R) -> Option<bool>>(input: &mut R, mut next: F) -> Tally
    requires { F.IsAlwaysCallable next }
    ensures { Judged F.FnMut next input.old result input.new }
{
    let mut wrong = 0;
    for cases in 0..u64::MAX {
        match next(input) {
            Some(right) => wrong += u64::from(!right),
            None => return Tally { cases, wrong },
        }
    }
    Tally {
        cases: u64::MAX,
        wrong,
    }
}
