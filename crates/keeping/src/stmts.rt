// Statements of an area: the tree file's words, whose trees fill the nodes in order, then fate and variable.
ghost use Rattle.std.specs.Prelude.{◌≡◌, ◌^◌, ◌≤◌, ◌<◌};
ghost use Rattle.ast.specs.Views.{nodes_seen, records_seen, record_seen};
ghost use Rattle.definitions.specs.Layout.{fate_fits, row_fits, rows_fit};
ghost use Rattle.definitions.specs.Numbers.{stmt_length};

use area::layout::{Fate, STMT_FATE, STMT_VARIABLE};
use ast::kinds::StmtKind;
use ast::layout::{MOST_NAMES, STMT_KIND, STMT_RIGHT};
use ast::places::{NodeView, RecordView};
use ast::stmts::stmt_fits;

// A fate is 1 to 4, of a variable that exists; 4, left over, has variable 0.
// By numbers, as the definition's test is: the first and the last fate are its bounds.
fn fate_fits(rs: &RecordView, i: usize, vars: usize) -> bool
    requires { (stmt_length ≤ rs.now.records.width)
        × (i < rs.now.records.count) }
    ensures { result ≡ fate_fits vars (record_seen rs.now i) }
{
    let fate = rs.word(i, STMT_FATE);
    let variable = rs.word(i, STMT_VARIABLE);
    if fate == Fate::LeftOver as usize {
        return variable == 0;
    }
    (Fate::Initial as usize <= fate) & (fate <= Fate::LeftOver as usize) & (variable < vars)
}

// A statement whose trees go on from node `first`, and that is no submodel statement.
// The kind goes by its number, as in `NodeView::is`.
fn row_fits(ns: &NodeView, rs: &RecordView, i: usize, vars: usize, first: usize) -> bool
    requires { (stmt_length ≤ rs.now.records.width)
        × (i < rs.now.records.count)
        × (first ≤ 2 ^ 32) }
    ensures { result ≡ row_fits ns.now.nodes.count (nodes_seen ns.now) vars first
        (record_seen rs.now i) }
{
    stmt_fits(ns, rs, i, MOST_NAMES, first)
        & (rs.word(i, STMT_KIND) != StmtKind::Submodel as usize)
        & fate_fits(rs, i, vars)
}

// Where the next trees begin is a count beside the loop: only the statement before it tells.
pub fn rows_fit(ns: &NodeView, rs: &RecordView, vars: usize) -> bool
    requires { stmt_length ≤ rs.now.records.width }
    ensures { result ≡ rows_fit ns.now.nodes.count (nodes_seen ns.now) vars 0
        (records_seen rs.now) }
{
    let mut first: usize = 0;
    for i in 0..rs.records.count {
        if !row_fits(ns, rs, i, vars, first) {
            return false;
        }
        first = rs.word(i, STMT_RIGHT) + 1;
    }
    first == ns.nodes.count
}
