// `allocate_stmts`: the fate of every flattened statement, by its role and by pairing.
ghost use Rattle.std.specs.Prelude.{◌≡◌, ℕ, length};
ghost use Rattle.ast.specs.Bytes.{put};
ghost use Rattle.ast.specs.Encode.{encode};
ghost use Rattle.definitions.specs.Allocate.{left_count};
ghost use Rattle.area.specs.Sections.{stmts_at};
ghost use Rattle.builder.specs.Allocating.{Flattened, Numbered};
ghost use Rattle.builder.specs.Root.{roles_by, lacking_by, fated_by};

use crate::allocation::fates::write_fates_wide;
use crate::allocation::pairing::{lacking_wide, left_count};
use crate::allocation::roles::roles;
use area::records::Area;
use area::sections::Sizes;

// How many statements are left, and how many states lack an equation.
#[derive(Clone, Copy)]
pub struct Left {
    pub stmts: usize,
    pub states: usize,
}

pub fn allocate_stmts(area: &mut [u8], z: Sizes, numbers: &[u16], lower: f64) -> Left
    requires { ((names : ℕ) × Flattened names area.old z)
        × Numbered area.old z numbers.now }
    ensures { (result.stmts ≡ left_count (roles_by area.old z numbers.now lower))
        × (result.states ≡ length (lacking_by area.old z numbers.now lower))
        × (area.new ≡ put area.old (stmts_at z)
        (encode (fated_by area.old z numbers.now lower))) }
{
    let read = Area {
        bytes: area,
        sizes: z,
    };
    let table = roles(&read, numbers, lower);
    let roles = table.as_slice();
    let states = lacking_wide(roles, &read);
    let left = Left {
        stmts: left_count(roles),
        states: states.len(),
    };
    // All states are paired where as many statements are left, otherwise none.
    let paired = if left.stmts == left.states {
        states.as_slice()
    } else {
        &[]
    };
    write_fates_wide(area, z, roles, paired);
    left
}
