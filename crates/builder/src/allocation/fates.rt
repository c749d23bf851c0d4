// The fates of the flattened statements, in words 6 and 7 of their records in the area.
ghost use Rattle.std.specs.Prelude.{◌≡◌, map, ◌+◌, ◌*◌, ◌≤◌, ◌<◌, length, take, drop, get_or};
ghost use Rattle.ast.specs.Words.{bytes_of};
ghost use Rattle.ast.specs.Bytes.{put};
ghost use Rattle.ast.specs.Encode.{encode};
ghost use Rattle.area.specs.Fates.{fate_number};
ghost use Rattle.area.specs.Sections.{Small, stmts_at, vars_at, area_stmts, area_stmt};
ghost use Rattle.definitions.specs.Numbers.{stmt_length};
ghost use Rattle.definitions.specs.Roles.{free};
ghost use Rattle.definitions.specs.Allocate.{fates_of};
ghost use Rattle.builder.specs.Allocating.{role_as};
ghost use Rattle.builder.specs.Fating.{fate_in, queue_in, fate_pair, with_fate, fated};

use crate::allocation::pairing::has_rate;
use crate::allocation::roles::Role;
use area::layout::{FATE_AT, Fate, STMT_BYTES, VARIABLE_AT};
use area::sections::{Sizes, stmts_at};
use arrayvec::ArrayVec;
use ast::layout::MOST_STMTS;
use ast::words::put_word;

// Writes the fate of statement i and its variable.
fn put_fate(area: &mut [u8], z: Sizes, i: usize, fate: Fate, v: u32)
    requires { Small z
        × (vars_at z ≤ length area.old)
        × (i < z.stmts) }
    ensures { area.new ≡ put area.old (stmts_at z + 4 * stmt_length * i)
        (bytes_of (with_fate (area_stmt area.old z i) (fate_number fate, v))) }
{
    let at = stmts_at(z) + STMT_BYTES * i;
    put_word(area, at + FATE_AT, fate as u32);
    put_word(area, at + VARIABLE_AT, v);
}

// Writes the fate of statement i, and gives the states that are still queued behind it.
fn write_fate<'a>(
    area: &mut [u8],
    z: Sizes,
    roles: &[Role],
    i: usize,
    queue: &'a [u32],
) -> &'a [u32]
    requires { Small z
        × (vars_at z ≤ length area.old)
        × (i < z.stmts)
        × (length roles.now ≡ z.stmts) }
    ensures { (area.new ≡ put area.old (stmts_at z + 4 * stmt_length * i)
        (bytes_of (with_fate (area_stmt area.old z i)
        (fate_pair (fate_in queue.now (get_or (map role_as roles.now) i free)
        (drop (i + 1) (map role_as roles.now)))))))
        × (result.now ≡ queue_in queue.now (get_or (map role_as roles.now) i free)) }
{
    match roles[i] {
        Role::Neither => {
            if let Some((v, rest)) = queue.split_first() {
                put_fate(area, z, i, Fate::Held, *v);
                return rest;
            }
            put_fate(area, z, i, Fate::LeftOver, 0);
        }
        Role::Initial(v) => put_fate(area, z, i, Fate::Initial, v),
        Role::Rate(v) => {
            if has_rate(&roles[i + 1..], v) {
                put_fate(area, z, i, Fate::Replaced, v);
            } else {
                put_fate(area, z, i, Fate::Held, v);
            }
        }
    }
    queue
}

// Writes the fates of all statements, those left paired with the queued states in order; roles behind theirs are
// not looked at.
// By number: a statement's record is written by it, and a rate asks for the roles behind it.
pub fn write_fates_wide(area: &mut [u8], z: Sizes, roles: &[Role], states: &[u32])
    requires { Small z
        × (vars_at z ≤ length area.old)
        × (z.stmts ≤ length roles.now) }
    ensures { area.new ≡ put area.old (stmts_at z)
        (encode (fated (area_stmts area.old z)
        (map fate_pair (fates_of states.now (take z.stmts (map role_as roles.now)))))) }
{
    let roles = &roles[..z.stmts];
    let mut queue = states;
    for i in 0..z.stmts {
        queue = write_fate(area, z, roles, i, queue);
    }
}

// The same, of just as many roles as statements and of states in 16 bits.
// No more states are paired than there are statements, so a table for the most statements holds all that are.
pub fn write_fates(area: &mut [u8], z: Sizes, roles: &[Role], states: &[u16])
    requires { Small z
        × (vars_at z ≤ length area.old)
        × (length roles.now ≡ z.stmts) }
    ensures { area.new ≡ put area.old (stmts_at z)
        (encode (fated (area_stmts area.old z)
        (map fate_pair (fates_of states.now (map role_as roles.now))))) }
{
    let looked_at = &states[..states.len().min(z.stmts)];
    let mut wide = ArrayVec::<u32, MOST_STMTS>::new();
    for v in looked_at {
        wide.push(u32::from(*v));
    }
    write_fates_wide(area, z, roles, wide.as_slice());
}
