// Files as the programs take them: the front of one, and the line that is said of one that failed.
#![tactic(auto)]

ghost use Rattle.std.specs.Prelude.{◌≡◌, ◌<◌, ◌≤◌, ◌++◌, IfOk, take, length, string_bytes, codes};
ghost use Rattle.std.specs.Io.KnownBytes.{Consumes, IsAtEnd};
ghost use Rattle.files.specs.Said.{IsCut, IsLine, line_of};

use std::alloc::{AllocError, Allocator};
use std::fmt::{Display, Formatter};
use std::io::Read;
use std::{fmt, io};

// Reads until the buffer is full or the file ends, and gives how many bytes it put at the buffer's start.
// A length and no slice: a short one says that the file ended.
pub fn read_full<R: Read>(file: &mut R, buffer: &mut [u8]) -> io::Result<usize>
    ensures bound { IfOk result (λ n. n ≤ length buffer.new) }
    ensures bytes { IfOk result (λ n.
        Consumes (R.remaining file.old) (R.remaining file.new) (take n buffer.new)) }
    ensures end { IfOk result (λ n. n < length buffer.new → IsAtEnd (R.remaining file.new)) }
{
    // A read puts as many bytes as it likes: nothing is counted through, so this is no `for`.
    let mut done = 0;
    while done < buffer.len() {
        match file.read(&mut buffer[done..])? {
            0 => break,
            n => done += n,
        }
    }
    Ok(done)
}

// An error's text without the number that std has behind it.
// A match, since its two cases are the contract's.
fn words_of(said: &str) -> &str
    ensures { IsCut (codes " (os error ") said.now result.now }
{
    match said.split_once(" (os error ") {
        Some((words, _)) => words,
        None => said,
    }
}

// What failed, and the words of its error: only the words take memory, and the line is written as it is printed.
#[derive(Drop)]
pub struct FailedLine<'a, A: Allocator> {
    pub what: &'a str,
    pub words: String<A>,
}

impl<A: Allocator> Display for FailedLine<'_, A> {
    ghost use Rattle.std.specs.Prelude.{Some};
    ghost use Rattle.files.specs.Said.{line_of};

    ghost output = { λ failure. Some (line_of failure.what.now (string_bytes failure.words)) };

    fn fmt<W: fmt::Write>(&self, f: &mut Formatter<W>) -> fmt::Result {
        let (what, words) = (self.what, &self.words);
        write!(f, "{what}: {words}")
    }
}

// The line that says what failed, and why.
pub fn failure<'a, R: Alloc>(
    rt: &R,
    what: &'a str,
    error: io::Error,
) -> Result<FailedLine<'a, R::A>, AllocError>
    ensures { IfOk result (λ line. IsLine what.now (line_of line.what.now (string_bytes line.words))) }
{
    let mut words = format!(in rt.alloc(); "{error}")?;
    let end = words_of(words.as_str()).len();
    words.truncate(end);
    Ok(FailedLine { what, words })
}

#[cfg(test)]
mod tests {
    use super::failure;
    use std::io::{Error, ErrorKind};
    use std::test::Fail;

    // That memory is found for a line, and that the number behind an error of the system is left out.
    #[test]
    fn what_failed_is_said(rt: HostRuntime) -> Result<(), Fail> {
        let of_the_system = Error::from_raw_os_error(2);
        let of_our_own = Error::new(ErrorKind::InvalidFilename, "not UTF-8 text");
        for (error, said) in [
            (of_the_system, "a.tree: No such file or directory"),
            (of_our_own, "a.tree: not UTF-8 text"),
        ] {
            let failure = failure(&rt, "a.tree", error)?;
            let line = format!(in rt.alloc(); "{failure}")?;
            if line.as_str() != said {
                return Err(Fail::new(line));
            }
        }
        Ok(())
    }
}
