// What each variable holds, by the fates of the statements: in its record, the first statement that it holds plus 1 or
// 0, and how many initial conditions it has.
ghost use Rattle.std.specs.Prelude.{◌≡◌, ◌+◌, ◌<◌};
ghost use Rattle.ast.specs.Bytes.{put};
ghost use Rattle.ast.specs.Encode.{encode};
ghost use Rattle.area.specs.Sections.{vars_at, area_stmts, area_vars};
ghost use Rattle.builder.specs.VarRecords.{held_from, NothingHeld, HeldBehind, HeldChanged};

use area::layout::{Fate, STMT_VARIABLE, VAR_HELD, VAR_INITIAL};
use area::records::{Area, put_var};
use area::sections::Sizes;

// Adds statement i to what the records say of those behind it.
fn hold_stmt(area: &mut [u8], z: Sizes, i: usize)
    requires { HeldBehind z (i + 1) area.old
        × (i < z.stmts) }
    ensures { HeldBehind z i area.new
        × HeldChanged z area.old area.new }
{
    let read = Area {
        bytes: area,
        sizes: z,
    };
    let v = read.stmt(i, STMT_VARIABLE);
    if z.vars <= v {
        return;
    }
    if read.is_fated(i, Fate::Held) {
        put_var(area, z, v, VAR_HELD, (i + 1) as u32);
        return;
    }
    if read.is_fated(i, Fate::Initial) {
        let more = read.var(v, VAR_INITIAL) + 1;
        put_var(area, z, v, VAR_INITIAL, more);
    }
}

// The same of all statements, from the last one on, where the records hold nothing yet.
pub fn write_held(area: &mut [u8], z: Sizes)
    requires { NothingHeld z area.old }
    ensures { area.new ≡ put area.old (vars_at z)
        (encode (held_from (area_stmts area.old z) 0 (area_vars area.old z))) }
{
    for i in (0..z.stmts).rev() {
        hold_stmt(area, z, i);
    }
}
