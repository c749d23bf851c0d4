// An open file with what a build asks of it again and again, worked out once: as a whole, and the two halves of which
// most steps ask one only.
ghost use Rattle.std.specs.Prelude.{◌≡◌, ◌≤◌, length};
ghost use Rattle.ast.specs.Opens.{file_in};
ghost use Rattle.definitions.specs.Numbers.{most_names};
ghost use Rattle.builder.specs.Tables.{Classes, Callees};

use crate::models::called::callees;
use crate::names::{Class, classes};
use ast::layout::{MOST_NAMES, MOST_STMTS};
use ast::view::View;

// The file, and of each statement the number, plus 1, of the model that it calls, or 0.
#[derive(Clone, Copy)]
pub struct Calls<'a> {
    pub file: View<'a>,
    pub callees: &'a [u8; MOST_STMTS],
    pub ghost called: { Callees file.bytes.now file.sections callees.now },
}

impl Calls<'_> {
    ghost use Rattle.std.specs.Prelude.{◌<◌};
    ghost use Rattle.ast.specs.Views.{file_seen};
    ghost use Rattle.builder.specs.Checking.{stmt_in};
    ghost use Rattle.builder.specs.Starting.{place_as};
    ghost use Rattle.builder.specs.Tables.{called_by};

    // The model that statement q calls, if it calls one.
    pub fn callee(&self, q: usize) -> Option<usize>
        requires { q < self.now.file.sections.counts.stmts }
        ensures { place_as result ≡ called_by (file_seen self.now.file)
            (stmt_in self.now.file.bytes.now self.now.file.sections q) }
    {
        usize::from(self.callees[q]).checked_sub(1)
    }
}

// The file, and the class of each name; entries behind those of the names are not asked for.
#[derive(Clone, Copy)]
pub struct Classed<'a> {
    pub file: View<'a>,
    pub classes: &'a [Class],
    pub ghost long: { file.sections.counts.names ≤ length classes.now },
    pub ghost classed: { Classes (file_in file.bytes.now file.sections).names classes.now },
}

// Both tables of a file. An Option in each entry of the calls would make a table twice as long on the stack of a build,
// which has no heap.
#[derive(Drop)]
pub struct Source<'a> {
    pub file: View<'a>,
    pub classes: [Class; MOST_NAMES],
    pub callees: [u8; MOST_STMTS],
    pub ghost long: { length classes ≡ most_names },
    pub ghost classed: { Classes (file_in file.bytes.now file.sections).names classes },
    pub ghost called: { Callees file.bytes.now file.sections callees },
}

impl<'a> Source<'a> {
    // Of an open file.
    pub fn new(file: &View<'a>) -> Source<'a>
        ensures { result.file ≡ file.now }
    {
        Source {
            file: *file,
            classes: classes(file),
            callees: callees(file),
        }
    }

    // The half with the calls.
    pub fn calls(&self) -> Calls<'_>
        ensures { result.file ≡ self.now.file }
    {
        Calls {
            file: self.file,
            callees: &self.callees,
        }
    }

    // The half with the classes.
    pub fn names(&self) -> Classed<'_>
        ensures { result.file ≡ self.now.file }
    {
        Classed {
            file: self.file,
            classes: &self.classes,
        }
    }
}
