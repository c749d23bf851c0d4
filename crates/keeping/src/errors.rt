// Listed errors of an area: kind, span, name plus 1 or 0.
ghost use Rattle.std.specs.Prelude.{◌≡◌, ◌≤◌, ◌<◌};
ghost use Rattle.functions.specs.Lists.{all};
ghost use Rattle.ast.specs.Views.{records_seen, record_seen};
ghost use Rattle.definitions.specs.Layout.{error_fits};
ghost use Rattle.definitions.specs.Numbers.{error_length};

use area::layout::{ERROR_FROM, ERROR_KIND, ERROR_NAME, ERROR_TO};
use ast::layout::MOST_NAMES;
use ast::places::RecordView;

// The kinds that exist are 1 to `kinds`.
fn error_fits(rs: &RecordView, i: usize, kinds: usize) -> bool
    requires { (error_length ≤ rs.now.records.width)
        × (i < rs.now.records.count) }
    ensures { result ≡ error_fits kinds (record_seen rs.now i) }
{
    let kind = rs.word(i, ERROR_KIND);
    (1 <= kind)
        & (kind <= kinds)
        & (rs.word(i, ERROR_FROM) <= rs.word(i, ERROR_TO))
        & (rs.word(i, ERROR_NAME) <= MOST_NAMES)
}

// By a number: the greatest kind (`kinds`) is a parameter of the definition, too.
pub fn errors_fit(rs: &RecordView, kinds: usize) -> bool
    requires { error_length ≤ rs.now.records.width }
    ensures { result ≡ all (error_fits kinds) (records_seen rs.now) }
{
    (0..rs.records.count).all(|i| error_fits(rs, i, kinds))
}
