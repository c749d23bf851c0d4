// All errors of an answer, in order: of building the model, of each statement's role, of the counts, of the initial
// conditions.
ghost use Rattle.std.specs.Prelude.{◌≡◌, ◌≤◌, ◌<◌, length};
ghost use Rattle.ast.specs.Views.{file_seen};
ghost use Rattle.definitions.specs.Flatten.{errors_of};
ghost use Rattle.area.specs.Listing.{list_length, Lists};
ghost use Rattle.area.specs.LentList.{Listed, RoomFor};
ghost use Rattle.builder.specs.Root.{Erring, errors_by};

use crate::allocation::roles::roles_errors;
use crate::allocation::statements::Left;
use crate::errors::builder::builder;
use crate::errors::checked::Tables;
use crate::errors::conditions::{count_error, starting_errors};
use crate::names::rules;
use crate::root::Root;
use crate::source::Source;
use area::errors::Errors;
use area::records::Area;

// Those of building model m.
fn models_errors(source: &Source, m: usize, errors: &mut Errors)
    requires { (m < source.now.file.sections.counts.models)
        × RoomFor errors.old (errors_of (file_seen source.now.file) (length (file_seen source.now.file).models) m) }
    ensures { Listed errors.old (errors_of (file_seen source.now.file)
        (length (file_seen source.now.file).models) m) errors.new }
{
    let table = rules(&source.file);
    let tables = Tables {
        names: source.names(),
        rules: &table,
    };
    builder(
        &source.calls(),
        &tables,
        source.file.sections.counts.models,
        m,
        errors,
    );
}

// All of them, of the root.
fn list_all(
    source: &Source,
    area: &Area,
    numbers: &[u16],
    root: Root,
    left: Left,
    errors: &mut Errors,
)
    requires { Erring source.now.file.bytes.now source.now.file.sections area.now.bytes.now numbers.now root.model
        area.now.sizes
        × (errors.old.count ≡ 0) }
    ensures { Listed errors.old (errors_by area.now.bytes.now area.now.sizes numbers.now
        root.time.lower (file_seen source.now.file) root.model left.stmts left.states) errors.new }
{
    let m = root.model;
    models_errors(source, m, errors);
    roles_errors(area, numbers, root.time.lower, errors);
    errors.list(count_error(&source.file, m, left));
    starting_errors(&source.file, m, area, errors);
}

// The same at the front of lent bytes, and how many there are.
pub fn all_errors(
    source: &Source,
    area: &Area,
    numbers: &[u16],
    root: Root,
    left: Left,
    out: &mut [u8],
) -> usize
    requires { Erring source.now.file.bytes.now source.now.file.sections area.now.bytes.now numbers.now root.model
        area.now.sizes
        × (list_length ≤ length out.old) }
    ensures { Lists out.old 0 (errors_by area.now.bytes.now area.now.sizes numbers.now
        root.time.lower (file_seen source.now.file) root.model left.stmts left.states) result out.new }
{
    let mut errors = Errors::new(out);
    list_all(source, area, numbers, root, left, &mut errors);
    errors.count
}
