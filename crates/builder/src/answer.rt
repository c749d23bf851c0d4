// An answer written whole into an area of 55,384 bytes.
ghost use Rattle.std.specs.Prelude.{◌≡◌, cond, ◌≤◌, length, take};
ghost use Rattle.ast.specs.Views.{file_seen};
ghost use Rattle.definitions.specs.Numbers.{most_bytes, short_left_side};
ghost use Rattle.definitions.specs.Allocate.{left_count, lacking};
ghost use Rattle.definitions.specs.Answer.{answer_bytes};
ghost use Rattle.definitions.specs.Build.{refusal, accepted, any_short};
ghost use Rattle.builder.specs.Root.{flats_of, scope_at, roles_at, answer_at, ExtentOf, Sources, Rooted, Unfated, Held, answered_as, used_in, bytes_in};

use crate::allocation::held::write_held;
use crate::allocation::roles::any_short;
use crate::allocation::statements::{Left, allocate_stmts};
use crate::errors::all::all_errors;
use crate::extent::measure::Extent;
use crate::flattening::laid::lay_flats;
use crate::models::scope::no_marks;
use crate::refusal::Refusal;
use crate::root::Root;
use crate::source::Source;
use crate::variables::bounds::time_bounds;
use crate::variables::laid::lay_vars;
use crate::variables::records::write_header;
use area::errors::{errors_length, no_errors};
use area::layout::VAR_NAME;
use area::lent::put_errors;
use area::records::Area;
use area::sections::errors_at;

// Lists the errors apart, copies them to their section, writes the header, and gives the bytes used. `left` tells the
// statements left and the states that lack an equation.
fn finish(source: &Source, area: &mut [u8], numbers: &[u16], root: Root, left: Left) -> usize
    requires { Rooted source.now.file.bytes.now source.now.file.sections numbers.now root.model root.instances
        root.sizes root.time
        × Held (file_seen source.now.file) root.model root.sizes area.old
        × ((left.stmts ≡ left_count (roles_at (file_seen source.now.file) root.model))
        × (left.states ≡ length (lacking (scope_at (file_seen source.now.file) root.model).vars
        (roles_at (file_seen source.now.file) root.model)))) }
    ensures { (take result area.new ≡ answer_bytes (answer_at (file_seen source.now.file) root.model))
        × (result ≤ most_bytes) }
{
    let sizes = root.sizes;
    let mut errors = no_errors();
    let read = Area { bytes: area, sizes };
    let count = all_errors(source, &read, numbers, root, left, &mut errors);
    put_errors(area, sizes, &errors, count);
    write_header(&source.file, root, area, count);
    errors_at(sizes) + errors_length(count)
}

// Writes fates, what each variable holds, errors and header, and gives the bytes used.
fn write_answer(source: &Source, area: &mut [u8], numbers: &[u16], root: Root) -> usize
    requires { Rooted source.now.file.bytes.now source.now.file.sections numbers.now root.model root.instances
        root.sizes root.time
        × Unfated (file_seen source.now.file) root.model root.sizes area.old }
    ensures { (take result area.new ≡ answer_bytes (answer_at (file_seen source.now.file) root.model))
        × (result ≤ most_bytes) }
{
    let left = allocate_stmts(area, root.sizes, numbers, root.time.lower);
    write_held(area, root.sizes);
    finish(source, area, numbers, root, left)
}

// Refusal 10, or the rest of the answer, and the bytes used.
fn answer_laid(
    source: &Source,
    area: &mut [u8],
    numbers: &[u16],
    root: Root,
) -> Result<usize, Refusal>
    requires { Rooted source.now.file.bytes.now source.now.file.sections numbers.now root.model root.instances
        root.sizes root.time
        × Unfated (file_seen source.now.file) root.model root.sizes area.old }
    ensures { (answered_as result area.new ≡ bytes_in
        (cond (any_short (scope_at (file_seen source.now.file) root.model)
        (flats_of (file_seen source.now.file) root.model)) (refusal short_left_side)
        (accepted (answer_at (file_seen source.now.file) root.model))))
        × (used_in result ≤ most_bytes) }
{
    let sizes = root.sizes;
    let read = Area { bytes: area, sizes };
    if any_short(&read, numbers) {
        return Err(Refusal::ShortLeftSide);
    }
    Ok(write_answer(source, area, numbers, root))
}

// The answer of model m, of this extent, and the bytes used.
// Numbers stand beside `Root`: they are a table and lent, and a root is copied.
pub fn fill(
    source: &Source,
    rows: &mut [u16],
    m: usize,
    area: &mut [u8],
    extent: Extent,
) -> Result<usize, Refusal>
    requires { Sources source.now.file.bytes.now source.now.file.sections rows.old m area.old
        × ExtentOf (file_seen source.now.file) m extent.instances extent.stmts extent.nodes }
    ensures { (answered_as result area.new ≡ bytes_in
        (cond (any_short (scope_at (file_seen source.now.file) m) (flats_of (file_seen source.now.file) m))
        (refusal short_left_side) (accepted (answer_at (file_seen source.now.file) m))))
        × (used_in result ≤ most_bytes) }
{
    let mut numbers = no_marks();
    lay_flats(&source.calls(), rows, m, area, extent.nodes);
    let names = source.names();
    let sizes = lay_vars(&names, m, area, extent.nodes, extent.stmts, &mut numbers);
    let read = Area { bytes: area, sizes };
    let name = read.var(0, VAR_NAME) as usize;
    let time = time_bounds(&names, m, name);
    let root = Root {
        model: m,
        instances: extent.instances,
        sizes,
        time,
    };
    answer_laid(source, area, &numbers, root)
}
