// The lent area: an answer's bytes with zeros behind them, or zeros only. Where a function is one call of the
// library, its contract says it in the definitions' words, by which callers go on.
ghost use Rattle.std.specs.Prelude.{◌≡◌, ◌++◌, ◌+◌, ◌-◌, ◌*◌, min, ◌≤◌, ◌<◌, length, take, replicate};
ghost use Rattle.ast.specs.Bytes.{front, put};
ghost use Rattle.definitions.specs.Numbers.{most_listed, error_length};
ghost use Rattle.area.specs.Sections.{Small, errors_at};
ghost use Rattle.area.specs.Listing.{list_length};

use super::errors::errors_length;
use super::sections::{Sizes, errors_at};

// Zeros from a place to the end; nothing where the place is beyond it.
// A test, since no slice begins beyond the end; `get_mut` and a match on it are no plainer.
pub fn clear(area: &mut [u8], from: usize)
    ensures { area.new ≡ take from area.old ++ replicate
        (length area.old - from) 0 }
{
    if from < area.len() {
        area[from..].fill(0);
    }
}

// The first n bytes of an answer at the front of the area.
// A length beside the bytes: callers hold a longer buffer, and the contract speaks of its first n bytes.
pub fn copy(own: &[u8], n: usize, area: &mut [u8])
    requires { (n ≤ length own.now)
        × (n ≤ length area.old) }
    ensures { area.new ≡ front area.old (take n own.now) }
{
    area[..n].copy_from_slice(&own[..n]);
}

// Copies the errors that are listed, of `count` in all, to their section.
pub fn put_errors(area: &mut [u8], z: Sizes, errors: &[u8], count: usize)
    requires { Small z
        × (errors_at z + list_length ≤ length area.old)
        × (list_length ≤ length errors.now) }
    ensures { area.new ≡ put area.old (errors_at z)
        (take (4 * error_length * min count most_listed) errors.now) }
{
    let at = errors_at(z);
    copy(errors, errors_length(count), &mut area[at..]);
}
