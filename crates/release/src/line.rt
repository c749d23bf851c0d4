// The line that the program prints.
use super::answer::Totals;
use builder::refusal::{Refusal, Refused};
use std::fmt;
use std::fmt::{Display, Formatter};

// Why nothing was written, or what was.
// An enum and no Result, so that Display can be written for it.
#[derive(Clone, Copy)]
pub enum Line {
    Refused(Refused),
    Written(Totals),
}

// Who can mend what was refused: an area too short or a root that is not there, a file that is none, or the model.
fn mender(refused: Refused) -> &'static str {
    match refused {
        Refused::ShortArea | Refused::Model(Refusal::NoRoot) => "the caller",
        Refused::File(_) => "the maker of the file",
        Refused::Model(_) => "the model's author",
    }
}

impl Display for Line {
    fn fmt<W: fmt::Write>(&self, f: &mut Formatter<W>) -> fmt::Result {
        match self {
            Line::Refused(refused) => {
                let (number, by) = (refused.number(), mender(*refused));
                write!(f, "number {number} bytes 0: refused, to be mended by {by}")
            }
            Line::Written(totals) => write!(f, "number 0 {totals}"),
        }
    }
}
