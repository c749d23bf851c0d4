// How big a build is: instances, flattened statements and flattened nodes, each counted as the descent goes and at most
// to a limit.
ghost use Rattle.std.specs.Prelude.{◌≡◌, List, [], ℕ, ◌+◌, ◌≤◌, ◌<◌, get_or};
ghost use Rattle.functions.specs.Lists.{sum_of};
ghost use Rattle.ast.specs.Tree.{Flat, flat_size};
ghost use Rattle.ast.specs.Records.{stmt_of};
ghost use Rattle.ast.specs.Views.{contents_seen, file_seen};
ghost use Rattle.ast.specs.Rows.{at_most};
ghost use Rattle.definitions.specs.Numbers.{most_models, most_instances};
ghost use Rattle.definitions.specs.Flatten as Flatten;
ghost use Rattle.builder.specs.Descent.{flat_at, brought_at, RowsAt, RowsKept, OwnAt};
ghost use Rattle.builder.specs.Extents.{Counted, Extended};

use crate::flattening::replacements::find_replacements;
use crate::source::Calls;
use ast::kinds::StmtKind;
use ast::layout::{MODEL_FIRST_STMT, MODEL_STMTS, MOST_NODES, MOST_STMTS, STMT_LEFT, STMT_RIGHT};
use ast::subst::measure_expr;
use ast::view::View;

// How big flattened statements are: how many there are, and how many nodes their trees have.
// A count beyond its most stands as one more than the most, as `Extended` has it: a Result would be taken apart and
// put together at each sum of a descent.
#[derive(Clone, Copy)]
pub struct FlatExtent {
    pub stmts: usize,
    pub nodes: usize,
}

// The instances of model m, to a depth of k models, at most `most`: 1 for itself plus those of each submodel statement.
#[cycle(instances_stmt_instances)]
pub fn instances(calls: &Calls, k: usize, m: usize, most: usize) -> usize
    requires { (m < calls.now.file.sections.counts.models)
        × (k ≤ most_models)
        × (most ≤ most_instances + 1) }
    ensures { result ≡ at_most most (Flatten.instances (file_seen calls.now.file) k m) }
{
    if k == 0 {
        return 0;
    }
    if most == 0 {
        return 0;
    }
    let first = calls.file.model(m, MODEL_FIRST_STMT);
    let count = calls.file.model(m, MODEL_STMTS);
    let mut total = 1;
    for q in first..first + count {
        total += stmt_instances(calls, k - 1, q, most - total);
    }
    total
}

// Those of the model that statement q calls, if it calls one.
#[cycle(instances_stmt_instances)]
fn stmt_instances(calls: &Calls, k: usize, q: usize, most: usize) -> usize
    requires { (q < calls.now.file.sections.counts.stmts)
        × (k ≤ most_models)
        × (most ≤ most_instances + 1) }
    ensures { result ≡ at_most most (sum_of (λ j. Flatten.instances (file_seen calls.now.file) k j)
        (Flatten.stmt_models (file_seen calls.now.file)
        (stmt_of (contents_seen calls.now.file).nodes (get_or (contents_seen calls.now.file).stmts q [])))) }
{
    match calls.callee(q) {
        Some(c) => instances(calls, k, c, most),
        None => 0,
    }
}

// The nodes of statement q's own trees, read at a level, at most `most`.
// It goes as `write_own` does, and stays apart as `flat_extent` does.
fn own_nodes(file: &View, rows: &[u16], level: usize, q: usize, most: usize) -> usize
    requires { OwnAt file.now.bytes.now file.now.sections rows.now level q }
    ensures { (sub : ℕ → List Flat) → result ≡ at_most most
        (sum_of flat_size (brought_at file.now.bytes.now file.now.sections rows.now level sub q)) }
{
    let nodes = file.nodes();
    let right = file.stmt(q, STMT_RIGHT);
    if file.is_stmt(q, StmtKind::Rate) {
        return measure_expr(&nodes, rows, level, right, most);
    }
    let a = measure_expr(&nodes, rows, level, file.stmt(q, STMT_LEFT), most);
    a + measure_expr(&nodes, rows, level, right, most - a)
}

// The extent `done` and that of statement q, whose own trees are read at a level.
fn own_extent(file: &View, rows: &[u16], level: usize, q: usize, done: FlatExtent) -> FlatExtent
    requires { OwnAt file.now.bytes.now file.now.sections rows.now level q
        × Counted done }
    ensures { (sub : ℕ → List Flat) → Extended done
        (brought_at file.now.bytes.now file.now.sections rows.now level sub q) result }
{
    let nodes = done.nodes + own_nodes(file, rows, level, q, MOST_NODES + 1 - done.nodes);
    let stmts = (done.stmts + 1).min(MOST_STMTS + 1);
    FlatExtent { stmts, nodes }
}

// The extent `done` and that of model m's flattened statements, whose trees are read at a level. Each number is counted
// to one more than its most.
// `write_flats` has the same shape, and stays apart: it has room for all and asks for no limit.
#[cycle(flat_extent_stmt_extent)]
pub fn flat_extent(
    calls: &Calls,
    rows: &mut [u16],
    k: usize,
    m: usize,
    level: usize,
    done: FlatExtent,
) -> FlatExtent
    requires { (m < calls.now.file.sections.counts.models)
        × RowsAt calls.now.file.bytes.now calls.now.file.sections rows.old (level + k)
        × Counted done }
    ensures { Extended done (flat_at calls.now.file.bytes.now calls.now.file.sections rows.old level k m) result
        × RowsKept calls.now.file.bytes.now calls.now.file.sections level rows.old rows.new }
{
    if k == 0 {
        return done;
    }
    let first = calls.file.model(m, MODEL_FIRST_STMT);
    let count = calls.file.model(m, MODEL_STMTS);
    let mut total = done;
    for q in first..first + count {
        total = stmt_extent(calls, rows, k - 1, q, level, total);
    }
    total
}

// The extent `done` and that of what statement q brings in. Nothing is counted any more once both are beyond their
// mosts.
#[cycle(flat_extent_stmt_extent)]
fn stmt_extent(
    calls: &Calls,
    rows: &mut [u16],
    k: usize,
    q: usize,
    level: usize,
    done: FlatExtent,
) -> FlatExtent
    requires { (q < calls.now.file.sections.counts.stmts)
        × RowsAt calls.now.file.bytes.now calls.now.file.sections rows.old (level + k + 1)
        × Counted done }
    ensures { Extended done (brought_at calls.now.file.bytes.now calls.now.file.sections rows.old level
        (λ j. Flatten.flatten (file_seen calls.now.file) k j) q) result
        × RowsKept calls.now.file.bytes.now calls.now.file.sections level rows.old rows.new }
{
    if (MOST_STMTS < done.stmts) & (MOST_NODES < done.nodes) {
        return done;
    }
    if !calls.file.is_stmt(q, StmtKind::Submodel) {
        return own_extent(&calls.file, rows, level, q, done);
    }
    match calls.callee(q) {
        Some(c) if k != 0 => {
            let call = calls.file.stmt(q, STMT_RIGHT);
            find_replacements(&calls.file, c, call, rows, level);
            flat_extent(calls, rows, k, c, level + 1, done)
        },
        _ => done,
    }
}
