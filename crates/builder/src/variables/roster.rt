// The root's variables: t first, then each unreserved unknown's name in order of first declaration. A variable's
// record has its name plus 1, or 0, and so do the definitions; `numbers` has 0 for a name that is no variable's,
// since an Option in each entry would make it twice as long.
ghost use Rattle.std.specs.Prelude.{◌≡◌, [], ◌∷◌, ◌+◌, ◌*◌, ◌≤◌, ◌<◌, length, IfSome};
ghost use Rattle.std.proofs.Math.Option.{none};
ghost use Rattle.functions.specs.Lists.{plus_one};
ghost use Rattle.definitions.specs.Numbers.{most_names, most_variables};
ghost use Rattle.definitions.specs.Variables.{kept_deps, last_time};
ghost use Rattle.builder.specs.Tables.{Blank};
ghost use Rattle.area.specs.Sections.{Grown, area_vars, VarsAre};
ghost use Rattle.builder.specs.VariableTables.{words_from, declare_one, Listing, unknowns_in, roster_in, unknown_in, one_below, kept_by, kept_named, RoomBehind, PutBehind, Numbered, RosterRoom};
ghost use Rattle.builder.specs.Allocating.{names_in};
ghost use Rattle.builder.specs.Root.{VarsRoom, VarsListed};
ghost use Rattle.builder.specs.Starting.{place_as};

use crate::names::{is_reserved, time_name};
use crate::source::Classed;
use area::layout::VAR_NAME;
use area::records::put_var;
use area::sections::Sizes;
use ast::layout::{
    DEP_BYTES, MODEL_FIRST_UNKNOWN, MODEL_UNKNOWNS, UNKNOWN_DEPS, UNKNOWN_FIRST_DEP, UNKNOWN_NAME,
};
use ast::view::View;
use ast::words::{put_word, read_word};

// Lists t alone, as the one variable there is: its record has its name's number plus 1 (0 where no name is t), and
// `numbers`, without entries before, a variable's number plus 1 by a name's number.
fn time_alone(time: Option<usize>, area: &mut [u8], z: Sizes, numbers: &mut [u16])
    requires { IfSome time (λ n. n < most_names)
        × RosterRoom z area.old
        × (z.vars ≡ 1)
        × Blank most_names numbers.old }
    ensures { Listing (plus_one (place_as time) ∷ []) (names_in area.new z) numbers.new
        × VarsAre z area.old (area_vars area.new z) area.new }
{
    put_var(area, z, 0, VAR_NAME, time.map_or(0, |n| n as u32 + 1));
    if let Some(n) = time {
        numbers[n] = 1;
    }
}

// Lists a name behind the variables there are unless it is one of them, and gives the sizes then.
fn declare(area: &mut [u8], z: Sizes, numbers: &mut [u16], name: usize) -> Sizes
    requires { RosterRoom z area.old
        × Listing (names_in area.old z) (names_in area.old z) numbers.old
        × (z.vars < most_variables)
        × (name < most_names) }
    ensures { Listing (declare_one (names_in area.old z) name) (names_in area.new result)
        numbers.new
        × Grown z result
        × (result.vars ≤ z.vars + 1)
        × VarsAre result area.old (area_vars area.new result) area.new }
{
    if numbers[name] != 0 {
        return z;
    }
    let more = Sizes {
        vars: z.vars + 1,
        ..z
    };
    put_var(area, more, z.vars, VAR_NAME, (name + 1) as u32);
    numbers[name] = (z.vars + 1) as u16;
    more
}

// Lists the variables of model m behind n nodes and q statements, by name in a table without entries, and gives the
// sizes with them.
pub fn roster_of(
    names: &Classed,
    m: usize,
    area: &mut [u8],
    n: usize,
    q: usize,
    numbers: &mut [u16],
) -> Sizes
    requires { (m < names.now.file.sections.counts.models)
        × VarsRoom n q area.old
        × Blank most_names numbers.old }
    ensures { VarsListed names.now.file.bytes.now names.now.file.sections m n q area.old result area.new
        numbers.new }
{
    let first = names.file.model(m, MODEL_FIRST_UNKNOWN);
    let count = names.file.model(m, MODEL_UNKNOWNS);
    let mut z = Sizes {
        nodes: n,
        stmts: q,
        vars: 1,
        deps: 0,
    };
    time_alone(time_name(names), area, z, numbers);
    for u in first..first + count {
        let name = names.file.unknown(u, UNKNOWN_NAME);
        if !is_reserved(names.classes[name]) {
            z = declare(area, z, numbers, name);
        }
    }
    z
}

// Writes variable v - 1 behind `done` kept dependents, nothing where v is 0, and gives their new count.
// The bytes and how many dependents are written go side by side, as bytes go beside `Written`: the contract is an
// equation between the bytes before and after.
fn put_dep(v: u16, out: &mut [u8], done: usize) -> usize
    requires { RoomBehind (one_below v) done out.old }
    ensures { PutBehind (one_below v) done out.old result out.new }
{
    if v == 0 {
        return done;
    }
    put_word(out, DEP_BYTES * done, (v - 1) as u32);
    done + 1
}

// Writes unknown u's kept dependents behind `done` ones and gives their new count.
fn put_unknown_deps(file: &View, numbers: &[u16], u: usize, out: &mut [u8], done: usize) -> usize
    requires { (u < file.now.sections.counts.unknowns)
        × (length numbers.now ≡ most_names)
        × RoomBehind (kept_by numbers.now (unknown_in file.now.bytes.now file.now.sections u).deps) done out.old }
    ensures { PutBehind (kept_by numbers.now (unknown_in file.now.bytes.now file.now.sections u).deps) done
        out.old result out.new }
{
    let first = file.unknown(u, UNKNOWN_FIRST_DEP);
    let count = file.unknown(u, UNKNOWN_DEPS);
    let mut total = done;
    for d in first..first + count {
        total = put_dep(numbers[file.dep(d)], out, total);
    }
    total
}

// The same where unknown u declares the name (plus 1), else nothing.
fn put_named_deps(
    file: &View,
    numbers: &[u16],
    u: usize,
    name: usize,
    out: &mut [u8],
    done: usize,
) -> usize
    requires { (u < file.now.sections.counts.unknowns)
        × (length numbers.now ≡ most_names)
        × RoomBehind (kept_named numbers.now name (unknown_in file.now.bytes.now file.now.sections u)) done out.old }
    ensures { PutBehind (kept_named numbers.now name (unknown_in file.now.bytes.now file.now.sections u)) done
        out.old result out.new }
{
    if file.unknown(u, UNKNOWN_NAME) + 1 == name {
        return put_unknown_deps(file, numbers, u, out, done);
    }
    done
}

// Writes the kept dependents of the variable of a name (plus 1) behind `done` ones and gives their new count.
pub fn set_dependents(
    file: &View,
    numbers: &[u16],
    m: usize,
    name: usize,
    out: &mut [u8],
    done: usize,
) -> usize
    requires { Numbered file.now.bytes.now file.now.sections m numbers.now
        × RoomBehind (kept_deps (roster_in file.now.bytes.now file.now.sections m)
        (unknowns_in file.now.bytes.now file.now.sections m) name) done out.old }
    ensures { PutBehind (kept_deps (roster_in file.now.bytes.now file.now.sections m)
        (unknowns_in file.now.bytes.now file.now.sections m) name) done out.old result out.new }
{
    let first = file.model(m, MODEL_FIRST_UNKNOWN);
    let count = file.model(m, MODEL_UNKNOWNS);
    let mut total = done;
    for u in first..first + count {
        total = put_named_deps(file, numbers, u, name, out, total);
    }
    total
}

// The place of the last t among the dependents from `first` up to `end`.
pub fn time_index(deps: &[u8], first: usize, end: usize) -> Option<usize>
    requires { (first ≤ end)
        × (4 * end ≤ length deps.now) }
    ensures { place_as result ≡ last_time 0 none (words_from deps.now first end) }
{
    (first..end).rposition(|i| read_word(deps, DEP_BYTES * i) == 0)
}
