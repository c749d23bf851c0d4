// The records of the root's variables and the header. A name goes from hand to hand plus 1, or 0, as its record and
// the definitions have it.
ghost use Rattle.std.specs.Prelude.{◌≡◌, ◌++◌, ◌+◌, ◌*◌, ◌≤◌, ◌<◌, length, drop, get_or};
ghost use Rattle.functions.specs.Lists.{each};
ghost use Rattle.ast.specs.Words.{bytes_of};
ghost use Rattle.ast.specs.Bytes.{put};
ghost use Rattle.ast.specs.Encode.{encode};
ghost use Rattle.ast.specs.Views.{file_seen};
ghost use Rattle.definitions.specs.Numbers.{most_deps, variable_length};
ghost use Rattle.definitions.specs.Variables.{from_zero, last_bounds, at};
ghost use Rattle.definitions.specs.Flatten.{model_at};
ghost use Rattle.definitions.specs.Answer.{bounds_words};
ghost use Rattle.area.specs.Fields.{lead_length};
ghost use Rattle.area.specs.Sections.{Small, vars_at, deps_at};
ghost use Rattle.builder.specs.VariableTables.{words_from, Numbered};
ghost use Rattle.builder.specs.Allocating.{names_in};
ghost use Rattle.builder.specs.VarRecords.{is_time, LeadOf, lead_words, var_bounds, unheld_words, untimed_records, Headed, head_words};
ghost use Rattle.builder.specs.Root.{scope_at, VarsNamed, VarNext};

use crate::root::Root;
use crate::source::Classed;
use crate::variables::bounds::{put_time_bounds, put_var_bounds};
use crate::variables::roster::{set_dependents, time_index};
use area::header::put_counts;
use area::layout::{BOUNDS_AT, TIME_AT, VAR_BYTES, VAR_NAME};
use area::records::Area;
use area::sections::{Sizes, deps_at, vars_at};
use ast::view::View;
use ast::words::put_record;

// What a variable's record says in front of its bounds: its name plus 1, its dependents from `first` up to `end`, its
// time index plus 1 or 0, and whether it is time-dependent.
#[derive(Clone, Copy)]
struct Lead {
    name: u32,
    first: u32,
    end: u32,
    index: u32,
    time: bool,
}

// Writes the words of a variable in front of its bounds: it holds nothing yet.
fn put_lead(area: &mut [u8], at: usize, lead: Lead)
    requires { (at + 4 * lead_length ≤ length area.old)
        × (lead.first ≤ lead.end) }
    ensures { area.new ≡ put area.old at
        (bytes_of (lead_words lead.name lead.first lead.end lead.index lead.time)) }
{
    let state = u32::from(lead.first < lead.end);
    let count = lead.end - lead.first;
    let timed = u32::from(lead.time);
    let words = [lead.name, state, lead.index, lead.first, count, 0, 0, timed];
    put_record(&mut area[at..], &words);
}

// Writes the record of variable v at a place.
fn put_variable(names: &Classed, m: usize, area: &mut [u8], at: usize, v: usize, lead: Lead)
    requires { (m < names.now.file.sections.counts.models)
        × (at + 4 * variable_length ≤ length area.old)
        × (lead.first ≤ lead.end) }
    ensures { area.new ≡ put area.old at
        (bytes_of (lead_words lead.name lead.first lead.end lead.index lead.time ++ bounds_words
        (var_bounds (file_seen names.now.file).names (model_at (file_seen names.now.file) m).unknowns v
        lead.name))) }
{
    put_lead(area, at, lead);
    put_var_bounds(names, m, v, lead.name as usize, area, at + BOUNDS_AT);
}

// What the record of variable v says, whose name (plus 1) is given, and whose dependents stand in the area from `first`
// up to `end`.
fn lead_of(area: &Area, v: usize, name: u32, first: usize, end: usize) -> Lead
    requires { Small area.now.sizes
        × (first ≤ end)
        × (end ≤ most_deps)
        × (deps_at area.now.sizes + 4 * end ≤ length area.now.bytes.now) }
    ensures { LeadOf result v name first end (words_from (drop (deps_at area.now.sizes) area.now.bytes.now) first end) }
{
    let at = deps_at(area.sizes);
    let index = time_index(&area.bytes[at..], first, end);
    Lead {
        name,
        first: first as u32,
        end: end as u32,
        index: index.map_or(0, |i| i as u32 + 1),
        time: v == 0,
    }
}

// Writes the dependents of variable v, behind `done` ones, and its record, which has its name before and holds nothing
// yet, and gives the new count of dependents.
fn write_var(
    names: &Classed,
    m: usize,
    area: &mut [u8],
    z: Sizes,
    numbers: &[u16],
    v: usize,
    done: usize,
) -> usize
    requires { (m < names.now.file.sections.counts.models)
        × Numbered names.now.file.bytes.now names.now.file.sections m numbers.now
        × VarNext (file_seen names.now.file) m z area.old v done }
    ensures { (result ≡ done + length (at (scope_at (file_seen names.now.file) m).vars v).deps)
        × (area.new ≡ put (put area.old (deps_at z + 4 * done)
        (bytes_of (at (scope_at (file_seen names.now.file) m).vars v).deps)) (vars_at z + 4 * variable_length * v)
        (bytes_of (unheld_words is_time v done (at (scope_at (file_seen names.now.file) m).vars v)))) }
{
    let named = Area {
        bytes: area,
        sizes: z,
    };
    let name = named.var(v, VAR_NAME);
    let from = deps_at(z);
    let end = set_dependents(
        &names.file,
        numbers,
        m,
        name as usize,
        &mut area[from..],
        done,
    );
    let written = Area {
        bytes: area,
        sizes: z,
    };
    let lead = lead_of(&written, v, name, done, end);
    let place = vars_at(z) + VAR_BYTES * v;
    put_variable(names, m, area, place, v, lead);
    end
}

// The same of all variables, whose records have their names before; gives the count of dependents.
// The count goes from step to step: a variable's dependents begin where those of the one before end.
pub fn write_vars(names: &Classed, m: usize, area: &mut [u8], z: Sizes, numbers: &[u16]) -> usize
    requires { (m < names.now.file.sections.counts.models)
        × Numbered names.now.file.bytes.now names.now.file.sections m numbers.now
        × VarsNamed (file_seen names.now.file) m z area.old }
    ensures { (result ≡ length (each (λ x. x.deps) (scope_at (file_seen names.now.file) m).vars))
        × (area.new ≡ put (put area.old (deps_at z)
        (bytes_of (each (λ x. x.deps) (scope_at (file_seen names.now.file) m).vars))) (vars_at z)
        (encode (untimed_records (scope_at (file_seen names.now.file) m).vars))) }
{
    let mut done = 0;
    for v in 0..z.vars {
        done = write_var(names, m, area, z, numbers, v, done);
    }
    done
}

// Writes the header of an answer of a root: the counts, the instances, and time's bounds, those declared last for t.
pub fn write_header(file: &View, root: Root, area: &mut [u8], errors: usize)
    requires { Headed file.now.bytes.now file.now.sections root.model root.instances errors root.sizes root.time
        area.old }
    ensures { area.new ≡ put area.old 0
        (bytes_of (head_words root.sizes errors root.instances
        (last_bounds (file_seen file.now).names (get_or (names_in area.old root.sizes) 0 0) from_zero
        (model_at (file_seen file.now) root.model).unknowns))) }
{
    let sizes = root.sizes;
    let read = Area { bytes: area, sizes };
    let name = read.var(0, VAR_NAME) as usize;
    put_counts(area, sizes, errors, root.instances);
    put_time_bounds(root.time, file, root.model, name, area, TIME_AT);
}
