// The root's variables laid into the area: their records, which hold nothing yet, and behind them their dependents.
ghost use Rattle.std.specs.Prelude.{◌≡◌, ◌<◌, length};
ghost use Rattle.ast.specs.Views.{file_seen};
ghost use Rattle.definitions.specs.Numbers.{most_names};
ghost use Rattle.builder.specs.Tables.{Blank};
ghost use Rattle.builder.specs.VariableTables.{roster_in, Numbers};
ghost use Rattle.builder.specs.Root.{VarsRoom, VarsLaid};

use crate::source::Classed;
use crate::variables::reaching::reach_time;
use crate::variables::records::write_vars;
use crate::variables::roster::roster_of;
use area::sections::Sizes;

// Lays the variables of model m into an area of n nodes and q statements, notes their numbers by name in a table
// without entries, and gives the sizes.
// Nodes and statements go by themselves: an extent has instances too, of which this knows nothing.
pub fn lay_vars(
    names: &Classed,
    m: usize,
    area: &mut [u8],
    n: usize,
    q: usize,
    numbers: &mut [u16],
) -> Sizes
    requires { (m < names.now.file.sections.counts.models)
        × VarsRoom n q area.old
        × Blank most_names numbers.old }
    ensures { VarsLaid (file_seen names.now.file) m n q area.old result area.new
        × (Numbers (roster_in names.now.file.bytes.now names.now.file.sections m) numbers.new
        × (length numbers.new ≡ most_names)) }
{
    let named = roster_of(names, m, area, n, q, numbers);
    let deps = write_vars(names, m, area, named, numbers);
    let z = Sizes {
        nodes: n,
        stmts: q,
        vars: named.vars,
        deps,
    };
    reach_time(area, z);
    z
}
