// Which variables are time-dependent: t, and each from which t is reached through dependents. Their records say it.
ghost use Rattle.std.specs.Prelude.{◌≡◌, false, ℕ, ◌<◌, eqb, length, get_or};
ghost use Rattle.functions.specs.Lists.{any, flag};
ghost use Rattle.definitions.specs.Numbers.{most_variables};
ghost use Rattle.area.specs.Sections.{area_vars, VarsAre};
ghost use Rattle.builder.specs.Areas.{deps_seen, marks_seen, DepsSeen};
ghost use Rattle.builder.specs.Reaching.{marks_in, leads, DepsIn, Round, timed_by, timed_from};

use area::layout::{MOST_VARS, VAR_DEPS, VAR_FIRST_DEP, VAR_TIMED};
use area::records::{Area, put_var};
use area::sections::{Sizes, deps_at};
use ast::sections::dep_word;

// Whether one of the dependents of variable v is marked as time-dependent.
fn reaches_time(area: &Area, v: usize) -> bool
    requires { DepsSeen area.now
        × (v < area.now.sizes.vars) }
    ensures { result ≡ any (leads (marks_seen area.now)) (deps_seen area.now v) }
{
    let at = deps_at(area.sizes);
    let first = area.var(v, VAR_FIRST_DEP) as usize;
    let count = area.var(v, VAR_DEPS) as usize;
    (first..first + count).any(|i| {
        let d = dep_word(area.bytes, at, area.sizes.deps, i);
        area.var(d, VAR_TIMED) == 1
    })
}

// The next round of marks: t's, and that of each variable of which a dependent was marked.
// By number: a variable's record is asked for by it. So also in `take_marks`.
fn time_round(area: &Area) -> [bool; MOST_VARS]
    requires { DepsSeen area.now }
    ensures { Round area.now.sizes area.now.bytes.now result }
{
    let mut new = [false; MOST_VARS];
    for v in 0..area.sizes.vars {
        new[v] = (v == 0) | reaches_time(area, v);
    }
    new
}

// Takes over the marks, and tells whether one of them is new.
fn take_marks(area: &mut [u8], z: Sizes, next: &[bool]) -> bool
    requires { DepsIn z area.old
        × (length next.now ≡ most_variables) }
    ensures { VarsAre z area.old (timed_from (λ v. get_or next.now v false) 0
        (area_vars area.old z)) area.new
        × (result ≡ false → (v : ℕ) → v < z.vars
        → flag (get_or next.now v false) ≡ get_or (marks_in area.old z) v 0) }
{
    let mut changed = false;
    for v in 0..z.vars {
        let read = Area {
            bytes: area,
            sizes: z,
        };
        let old = read.var(v, VAR_TIMED);
        let new = u32::from(next[v]);
        changed |= old != new;
        put_var(area, z, v, VAR_TIMED, new);
    }
    changed
}

// Marks, where t alone is marked, each variable from which t is reached through dependents: round by round, until one
// marks nothing new.
pub fn reach_time(area: &mut [u8], z: Sizes)
    requires { DepsIn z area.old
        × ((v : ℕ) → v < z.vars → get_or (marks_in area.old z) v 0 ≡ flag (eqb v 0)) }
    ensures { VarsAre z area.old (timed_from (timed_by area.old z z.vars) 0
        (area_vars area.old z)) area.new }
{
    for _ in 0..z.vars {
        let read = Area {
            bytes: area,
            sizes: z,
        };
        let next = time_round(&read);
        if !take_marks(area, z, &next) {
            return;
        }
    }
}
