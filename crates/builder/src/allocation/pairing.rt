// The statements that are left, and the states that no rate equation goes to.
ghost use Rattle.std.specs.Prelude.{◌≡◌, ◌≤◌, ◌<◌, map, length, take, drop};
ghost use Rattle.functions.specs.Lists.{any};
ghost use Rattle.definitions.specs.Allocate.{is_rate_of, left_count};
ghost use Rattle.area.specs.Sections.{Small, deps_at};
ghost use Rattle.builder.specs.Tables.{lacks_in, lacking_in};
ghost use Rattle.builder.specs.Allocating.{role_as, is_role};
ghost use Rattle.builder.specs.Areas.{states_seen};

use crate::allocation::roles::Role;
use area::layout::{MOST_VARS, VAR_STATE};
use area::records::Area;
use arrayvec::ArrayVec;

// How many statements have no role.
pub fn left_count(roles: &[Role]) -> usize
    ensures { result ≡ left_count (map role_as roles.now) }
{
    roles.iter().filter(|role| **role == Role::Neither).count()
}

// Whether a statement from i on, of n ones, has a role.
pub fn has_role(roles: &[Role], i: usize, n: usize, role: Role) -> bool
    requires { (i ≤ n)
        × (n ≤ length roles.now) }
    ensures { result ≡ any (is_role (role_as role)) (drop i (take n (map role_as roles.now))) }
{
    roles[i..n].contains(&role)
}

// Whether a rate equation goes to variable v.
pub fn has_rate(roles: &[Role], v: u32) -> bool
    ensures { result ≡ any (is_rate_of v) (map role_as roles.now) }
{
    has_role(roles, 0, roles.len(), Role::Rate(v))
}

// Whether variable v is a state that no rate equation goes to.
fn lacks(roles: &[Role], area: &Area, v: u32) -> bool
    requires { (v < area.now.sizes.vars)
        × Small area.now.sizes
        × (deps_at area.now.sizes ≤ length area.now.bytes.now) }
    ensures { result ≡ lacks_in (map role_as roles.now) (states_seen area.now) v }
{
    (area.var(v as usize, VAR_STATE) == 1) & !has_rate(roles, v)
}

// The states of an area that no rate equation goes to.
// A push at each turn, as `lacking_in` says what each one adds: `collect` asks for the allocator of a heap, and
// there is none; `extend` answers a Result. So also in `roles`.
pub fn lacking_wide(roles: &[Role], area: &Area) -> ArrayVec<u32, MOST_VARS>
    requires { Small area.now.sizes
        × (deps_at area.now.sizes ≤ length area.now.bytes.now) }
    ensures { result.items ≡ lacking_in (map role_as roles.now) (states_seen area.now) area.now.sizes.vars }
{
    let mut states = ArrayVec::new();
    for v in 0..area.sizes.vars as u32 {
        if lacks(roles, area, v) {
            states.push(v);
        }
    }
    states
}

// The same in 16 bits, which hold the number of every variable.
pub fn lacking(roles: &[Role], area: &Area) -> ArrayVec<u16, MOST_VARS>
    requires { Small area.now.sizes
        × (deps_at area.now.sizes ≤ length area.now.bytes.now) }
    ensures { result.items ≡ lacking_in (map role_as roles.now) (states_seen area.now) area.now.sizes.vars }
{
    let wide = lacking_wide(roles, area);
    let mut states = ArrayVec::new();
    for v in wide.as_slice() {
        states.push(*v as u16);
    }
    states
}
