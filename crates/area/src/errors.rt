// What is found wrong, and the list of it.
ghost use Rattle.std.specs.Prelude.{◌≡◌, [], ◌∷◌, ◌*◌, ◌^◌, min, ◌≤◌, ◌<◌, length};
ghost use Rattle.definitions.specs.Numbers.{most_listed, error_length};
ghost use Rattle.definitions.specs.Variables.{error};
ghost use Rattle.area.specs.Listing.{spanned, list_length, Lists};

use super::layout::{ERROR_BYTES, ERRORS_BYTES, MOST_LISTED};
use ast::words::put_record;

// The kinds of errors. `Numbers` of definitions has their numbers; `as u32` is the word of one.
#[derive(Clone, Copy, Debug, PartialEq, Eq)]
pub enum ErrorKind {
    // A domain by a name that is no domain's.
    UnknownDomain = 1,
    ReservedName = 2,
    SubmodelMissing = 3,
    // In a submodel statement.
    PositionalAfterKeyword = 4,
    NameNotFound = 5,
    // In a call of a built-in function.
    CountAgainstTable = 6,
    KeywordInBuiltIn = 7,
    // In a call of a variable.
    CountAgainstVariable = 8,
    NoSuchDependent = 9,
    // In a call of a variable.
    PositionalAfterNamed = 10,
    CallNotFound = 11,
    // A number in time's place that is not time's lower bound.
    WrongStart = 12,
    RateInvalid = 13,
    // Fewer statements are left than states lack an equation.
    Underdetermined = 14,
    // More statements are left than states lack an equation.
    Overdetermined = 15,
    NoInitialCondition = 16,
    AlgebraicInitialCondition = 17,
}

// An error that a test finds: its kind, its span, and a name plus 1, or 0 for none, as the list has it and as a
// keyword's word in a node and a variable's name have it. A span goes as its two words, as records have it: a type
// for it would want a reader with a contract for each kind of records, which is longer than what it saves.
#[derive(Clone, Copy, Debug, PartialEq, Eq)]
pub struct Found {
    pub kind: ErrorKind,
    pub from: u32,
    pub to: u32,
    pub name: u32,
}

// The bytes of a list without errors, at its most.
pub fn no_errors() -> [u8; ERRORS_BYTES]
    ensures { length result ≡ list_length }
{
    [0u8; ERRORS_BYTES]
}

// Lists an error, its kind by any number, behind `count` of them, and gives their new number.
pub fn put_error(out: &mut [u8], count: usize, kind: u32, from: u32, to: u32, name: u32) -> usize
    requires { (list_length ≤ length out.old)
        × (count < 2 ^ 40) }
    ensures { Lists out.old count (error kind (spanned from to) name ∷ []) result out.new }
{
    let counted = count + 1;
    if count >= MOST_LISTED {
        return counted;
    }
    put_record(&mut out[ERROR_BYTES * count..], &[kind, from, to, name]);
    counted
}

// The bytes of those among `count` errors that are listed.
// A length and no slice: the answer's end is reckoned by it too.
pub fn errors_length(count: usize) -> usize
    ensures { (result ≡ 4 * error_length * min count most_listed)
        × (result ≤ list_length) }
{
    ERROR_BYTES * count.min(MOST_LISTED)
}

// The list of errors, apart from the area until it is whole: all are counted, the first 256 are listed, four words
// each: kind, span, name plus 1 or 0.
// As bytes, since they go into the area by one copy, and lent, so that whoever asks for the list says where it stands;
// the count goes on beyond those that are listed.
#[derive(Drop)]
pub struct Errors<'a> {
    pub bytes: &'a mut [u8],
    pub count: usize,
    pub ghost long: { list_length ≤ length bytes.now },
}

impl<'a> Errors<'a> {
    ghost use Rattle.area.specs.Listing.{error_as, found_as};
    ghost use Rattle.area.specs.LentList.{Listed};

    // None, in lent bytes.
    pub fn new(bytes: &'a mut [u8]) -> Errors<'a>
        requires { list_length ≤ length bytes.old }
        ensures { (result.count ≡ 0)
            × (result.bytes.now ≡ bytes.old)
            × (result.bytes.ghost_name ≡ bytes.entry.ghost_name) }
    {
        Errors { bytes, count: 0 }
    }

    // Lists an error behind the others.
    pub fn put(&mut self, e: Found)
        requires { self.old.count < 2 ^ 40 }
        ensures { Listed self.old (error_as e ∷ []) self.new }
    {
        self.count = put_error(self.bytes, self.count, e.kind as u32, e.from, e.to, e.name);
    }

    // Lists what is found behind the others. Both arms stand here, as the definition has them (`found_as`).
    pub fn list(&mut self, found: Option<Found>)
        requires { self.old.count < 2 ^ 40 }
        ensures { Listed self.old (found_as found) self.new }
    {
        match found {
            None => {}
            Some(e) => self.put(e),
        }
    }

    // How many bytes those take that are listed.
    pub fn length(&self) -> usize
        ensures { (result ≡ 4 * error_length * min self.now.count most_listed)
            × (result ≤ list_length) }
    {
        errors_length(self.count)
    }
}
