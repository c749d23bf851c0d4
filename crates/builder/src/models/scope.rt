// What expressions of a model are checked against: which names are its variables, and how many kept dependents each
// has.
ghost use Rattle.std.specs.Prelude.{◌≡◌, true, [], ◌∷◌, suc, ◌≤◌, ◌<◌, length};
ghost use Rattle.functions.specs.Lists.{is_some, member};
ghost use Rattle.ast.specs.Views.{file_seen};
ghost use Rattle.definitions.specs.Numbers.{most_names, most_deps};
ghost use Rattle.definitions.specs.Names.{time_name};
ghost use Rattle.definitions.specs.Variables.{variable_names};
ghost use Rattle.definitions.specs.Check.{lookup};
ghost use Rattle.definitions.specs.Flatten.{model_at};
ghost use Rattle.builder.specs.Tables.{Blank, VarsOf, Marks, kept_in};
ghost use Rattle.builder.specs.Checking.{scope_in, kept_names, unknown_in, Scoped};

use crate::names::{is_reserved, time_name};
use crate::source::Classed;
use ast::layout::{
    MODEL_FIRST_UNKNOWN, MODEL_UNKNOWNS, MOST_NAMES, UNKNOWN_DEPS, UNKNOWN_FIRST_DEP, UNKNOWN_NAME,
};
use ast::view::View;

// Whether a name is among the dependents of unknown u.
pub fn names_dep(file: &View, u: usize, name: usize) -> bool
    requires { u < file.now.sections.counts.unknowns }
    ensures { result ≡ member name (unknown_in file.now.bytes.now file.now.sections u).deps }
{
    let first = file.unknown(u, UNKNOWN_FIRST_DEP);
    let count = file.unknown(u, UNKNOWN_DEPS);
    (first..first + count).any(|d| name == file.dep(d))
}

// Whether a name is that of a kept dependent of the variable of another name.
pub fn is_dep_of(
    file: &View,
    vars: &[u16; MOST_NAMES],
    m: usize,
    variable: usize,
    name: usize,
) -> bool
    requires { Scoped file.now.bytes.now file.now.sections m vars.now
        × (is_some (lookup (scope_in file.now.bytes.now file.now.sections m) variable) ≡ true)
        × (name < file.now.sections.counts.names) }
    ensures { result ≡ member (suc name) (kept_names (scope_in file.now.bytes.now file.now.sections m)
        (lookup (scope_in file.now.bytes.now file.now.sections m) variable)) }
{
    if vars[name] == 0 {
        return false;
    }
    let first = file.model(m, MODEL_FIRST_UNKNOWN);
    let count = file.model(m, MODEL_UNKNOWNS);
    (first..first + count)
        .filter(|u| file.unknown(*u, UNKNOWN_NAME) == variable)
        .any(|u| names_dep(file, u, name))
}

// A table by name without marks. An entry has 16 bits: 1 plus a count of kept dependents is at most 1,025, 1 plus a
// number of the root's variables at most 129; 0 stands for none, since an Option would take two of them.
// Not by `no_rows`: those who mark ask for `Blank`. The table goes on as a slice and in no struct with a fact, since
// its fact changes: `Blank`, then `Marks`, then `VarsOf`.
pub fn no_marks() -> [u16; MOST_NAMES]
    ensures { Blank most_names result }
{
    [0u16; MOST_NAMES]
}

// Marks t's name, in a table without marks.
// As `time_alone`, whose entry is a variable's number: here it is a mark.
fn time_declared(names: &Classed, out: &mut [u16])
    requires { Blank most_names out.old }
    ensures { Marks names.now.file.sections.counts.names (time_name (file_seen names.now.file).names ∷ []) out.new }
{
    if let Some(time) = time_name(names) {
        out[time] = 1;
    }
}

// Marks the variables of model m, in a table without marks: t, and each unreserved unknown's name.
fn declared(names: &Classed, m: usize, out: &mut [u16])
    requires { (m < names.now.file.sections.counts.models)
        × Blank most_names out.old }
    ensures { Marks names.now.file.sections.counts.names (variable_names (file_seen names.now.file).names
        (model_at (file_seen names.now.file) m).unknowns) out.new }
{
    time_declared(names, out);
    let first = names.file.model(m, MODEL_FIRST_UNKNOWN);
    let count = names.file.model(m, MODEL_UNKNOWNS);
    for u in first..first + count {
        let name = names.file.unknown(u, UNKNOWN_NAME);
        if !is_reserved(names.classes[name]) {
            out[name] = 1;
        }
    }
}

// How many of unknown u's dependents are variables.
fn kept_count(file: &View, vars: &[u16], u: usize) -> u16
    requires { (u < file.now.sections.counts.unknowns)
        × (length vars.now ≡ most_names) }
    ensures { (result ≡ kept_in vars.now (unknown_in file.now.bytes.now file.now.sections u).deps)
        × (result ≤ most_deps) }
{
    let first = file.unknown(u, UNKNOWN_FIRST_DEP);
    let count = file.unknown(u, UNKNOWN_DEPS);
    (first..first + count)
        .filter(|d| vars[file.dep(*d)] != 0)
        .count() as u16
}

// Notes the variables of model m by name, in a table without marks: 0 where a name is none, else 1 plus the count of
// its kept dependents.
// It goes over the unknowns as `declared` does, and behind it: a dependent is kept where its name is marked, so all
// marks come first.
pub fn model_vars(names: &Classed, m: usize, out: &mut [u16])
    requires { (m < names.now.file.sections.counts.models)
        × Blank most_names out.old }
    ensures { VarsOf (scope_in names.now.file.bytes.now names.now.file.sections m) out.new
        × (length out.new ≡ most_names) }
{
    declared(names, m, out);
    let first = names.file.model(m, MODEL_FIRST_UNKNOWN);
    let count = names.file.model(m, MODEL_UNKNOWNS);
    for u in first..first + count {
        let name = names.file.unknown(u, UNKNOWN_NAME);
        if out[name] != 0 {
            out[name] += kept_count(&names.file, out, u);
        }
    }
}
