// Variables of an area: their runs of dependents fill the dependents in order, and no two have one name. A record is as
// long as its layout says.
ghost use Rattle.std.specs.Prelude.{◌≡◌, ◌^◌, ◌≤◌, ◌<◌, drop};
ghost use Rattle.functions.specs.Lists.{all};
ghost use Rattle.ast.specs.Views.{records_seen, record_seen};
ghost use Rattle.definitions.specs.Layout.{variable_fits, variables_fit, named_apart, names_differ};
ghost use Rattle.area.specs.Fields.{lead_length};

use area::layout::{
    VAR_DEPS, VAR_FIRST_DEP, VAR_HELD, VAR_INITIAL, VAR_NAME, VAR_STATE, VAR_TIME_INDEX, VAR_TIMED,
};
use ast::layout::MOST_NAMES;
use ast::places::RecordView;

// A variable whose run of dependents begins at `first`, where there are so many statements and dependents.
fn variable_fits(rs: &RecordView, i: usize, stmts: usize, deps: usize, first: usize) -> bool
    requires { (lead_length ≤ rs.now.records.width)
        × (i < rs.now.records.count)
        × (first < 2 ^ 32) }
    ensures { result ≡ variable_fits stmts deps first (record_seen rs.now i) }
{
    let count = rs.word(i, VAR_DEPS);
    (rs.word(i, VAR_NAME) <= MOST_NAMES)
        & (rs.word(i, VAR_STATE) <= 1)
        & (rs.word(i, VAR_TIME_INDEX) <= count)
        & (rs.word(i, VAR_FIRST_DEP) == first)
        & (first + count <= deps)
        & (rs.word(i, VAR_HELD) <= stmts)
        & (rs.word(i, VAR_INITIAL) <= stmts)
        & (rs.word(i, VAR_TIMED) <= 1)
}

// Where the next run begins is a count beside the loop: only the variable before it tells.
pub fn variables_fit(rs: &RecordView, stmts: usize, deps: usize) -> bool
    requires { (lead_length ≤ rs.now.records.width)
        × (deps < 2 ^ 32) }
    ensures { result ≡ variables_fit stmts deps 0 (records_seen rs.now) }
{
    let mut first: usize = 0;
    for i in 0..rs.records.count {
        if !variable_fits(rs, i, stmts, deps, first) {
            return false;
        }
        first += rs.word(i, VAR_DEPS);
    }
    first == deps
}

// Whether each variable from number `from` on is named, and otherwise than `name`.
fn named_apart(rs: &RecordView, from: usize, name: usize) -> bool
    requires { (lead_length ≤ rs.now.records.width)
        × (from ≤ rs.now.records.count) }
    ensures { result ≡ all (named_apart name) (drop from (records_seen rs.now)) }
{
    (from..rs.records.count).all(|i| {
        let other = rs.word(i, VAR_NAME);
        (other != 0) & (other != name)
    })
}

pub fn names_differ(rs: &RecordView) -> bool
    requires { lead_length ≤ rs.now.records.width }
    ensures { result ≡ names_differ (records_seen rs.now) }
{
    (0..rs.records.count).all(|i| named_apart(rs, i + 1, rs.word(i, VAR_NAME)))
}
