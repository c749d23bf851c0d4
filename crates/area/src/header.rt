// The counts at the front of an answer area's header.
ghost use Rattle.std.specs.Prelude.{◌≡◌, [], ◌∷◌, ◌*◌, ◌^◌, ◌≤◌, ◌<◌, length};
ghost use Rattle.ast.specs.Words.{bytes_of};
ghost use Rattle.ast.specs.Bytes.{put};
ghost use Rattle.area.specs.Fields.{counts_length};
ghost use Rattle.area.specs.Sections.{Small};

use super::layout::NODES_AT;
use super::sections::Sizes;
use ast::words::put_record;

// Writes the counts: nodes, statements, variables, dependents, errors, instances.
pub fn put_counts(area: &mut [u8], z: Sizes, errors: usize, instances: usize)
    requires { Small z
        × (4 * counts_length ≤ length area.old)
        × (errors < 2 ^ 32)
        × (instances < 2 ^ 32) }
    ensures { area.new ≡ put area.old 0
        (bytes_of (z.nodes ∷ z.stmts ∷ z.vars ∷ z.deps ∷ errors ∷ instances ∷ [])) }
{
    put_record(
        &mut area[NODES_AT..],
        &[
            z.nodes as u32,
            z.stmts as u32,
            z.vars as u32,
            z.deps as u32,
            errors as u32,
            instances as u32,
        ],
    );
}
