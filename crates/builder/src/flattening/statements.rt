// Flattening: in place of a submodel statement its model's own flattened statements come in, with replacements applied.
// One descent writes their nodes and their records, each into its final place.
ghost use Rattle.std.specs.Prelude.{◌≡◌, List, [], ◌∷◌, ℕ, ◌+◌, ◌*◌, ◌≤◌, ◌<◌, length};
ghost use Rattle.ast.specs.Tree.{Flat, size};
ghost use Rattle.ast.specs.Words.{bytes_of};
ghost use Rattle.ast.specs.Kinds.{stmt_number};
ghost use Rattle.ast.specs.Bytes.{put};
ghost use Rattle.ast.specs.NodesIn.{node_bytes};
ghost use Rattle.ast.specs.Encode.{nodes, encode};
ghost use Rattle.ast.specs.Rows.{read};
ghost use Rattle.ast.specs.Views.{contents_seen, file_seen};
ghost use Rattle.definitions.specs.Numbers.{stmt_length};
ghost use Rattle.definitions.specs.Flatten.{flatten};
ghost use Rattle.builder.specs.Descent.{flat_at, brought_at, RowsAt, RowsKept, ExprAt, OwnAt, NodesFit};
ghost use Rattle.builder.specs.Unfated.{FlatsFit, FlatsPut};

use crate::flattening::replacements::find_replacements;
use crate::source::Calls;
use area::layout::STMT_BYTES;
use ast::kinds::StmtKind;
use ast::layout::{
    MODEL_FIRST_STMT, MODEL_STMTS, NODE_BYTES, NODE_FROM, NODE_TO, STMT_FROM, STMT_LEFT, STMT_NAME,
    STMT_RIGHT, STMT_TO,
};
use ast::subst::clone_and_subst;
use ast::view::View;
use ast::words::put_record;

// How many nodes are written, and the byte behind the records written.
// The bytes go beside it: a step's contract is an equation between those before and after.
#[derive(Clone, Copy)]
pub struct Written {
    pub nodes: usize,
    pub end: usize,
}

// Writes the tree at node i, read at a level, behind `done` nodes, and gives their new number.
// As `write_behind` of ast, which is a part of the descent there and goes by nodes: here it is by an open file.
fn write_tree(
    file: &View,
    rows: &[u16],
    level: usize,
    i: usize,
    out: &mut [u8],
    done: usize,
) -> usize
    requires { ExprAt file.now.bytes.now file.now.sections i
        × RowsAt file.now.bytes.now file.now.sections rows.now level
        × NodesFit done (size (read (contents_seen file.now).nodes rows.now level i)) (length out.old) }
    ensures { (result ≡ done + size (read (contents_seen file.now).nodes rows.now level i))
        × (out.new ≡ put out.old (node_bytes * done)
        (encode (nodes (read (contents_seen file.now).nodes rows.now level i)))) }
{
    let nodes = file.nodes();
    let from = file.node(i, NODE_FROM) as u32;
    let to = file.node(i, NODE_TO) as u32;
    let start = NODE_BYTES * done;
    done + clone_and_subst(&nodes, rows, level, i, from, to, &mut out[start..])
}

// Writes a statement's record, without its fate, at a byte.
fn record_at(
    out: &mut [u8],
    at: usize,
    kind: StmtKind,
    name: u32,
    left: u32,
    right: u32,
    from: u32,
    to: u32,
)
    requires { at + 4 * stmt_length ≤ length out.old }
    ensures { out.new ≡ put out.old at
        (bytes_of (stmt_number kind ∷ name ∷ left ∷ right ∷ from ∷ to ∷ 0 ∷ 0 ∷ [])) }
{
    put_record(
        &mut out[at..],
        &[kind as u32, name, left, right, from, to, 0, 0],
    );
}

// Writes statement q's own trees, left before right, and its record, without its fate.
fn write_own(
    file: &View,
    rows: &[u16],
    level: usize,
    q: usize,
    out: &mut [u8],
    done: Written,
) -> Written
    requires { OwnAt file.now.bytes.now file.now.sections rows.now level q
        × ((sub : ℕ → List Flat) × FlatsFit done (brought_at file.now.bytes.now file.now.sections rows.now level sub q) (length out.old)) }
    ensures { (sub : ℕ → List Flat) → FlatsPut done out.old
        (brought_at file.now.bytes.now file.now.sections rows.now level sub q) result out.new }
{
    let end = done.end + STMT_BYTES;
    let from = file.stmt(q, STMT_FROM) as u32;
    let to = file.stmt(q, STMT_TO) as u32;
    let i = file.stmt(q, STMT_RIGHT);
    if file.is_stmt(q, StmtKind::Rate) {
        let name = file.stmt(q, STMT_NAME) as u32;
        let b = write_tree(file, rows, level, i, out, done.nodes);
        let r = (b - 1) as u32;
        record_at(out, done.end, StmtKind::Rate, name, 0, r, from, to);
        return Written { nodes: b, end };
    }
    let a = write_tree(file, rows, level, file.stmt(q, STMT_LEFT), out, done.nodes);
    let b = write_tree(file, rows, level, i, out, a);
    let l = (a - 1) as u32;
    let r = (b - 1) as u32;
    record_at(out, done.end, StmtKind::Equation, 0, l, r, from, to);
    Written { nodes: b, end }
}

// Writes model m's flattened statements, whose trees are read at a level, behind those done.
#[cycle(write_flats_write_stmt)]
pub fn write_flats(
    calls: &Calls,
    rows: &mut [u16],
    k: usize,
    m: usize,
    level: usize,
    out: &mut [u8],
    done: Written,
) -> Written
    requires { (m < calls.now.file.sections.counts.models)
        × RowsAt calls.now.file.bytes.now calls.now.file.sections rows.old (level + k)
        × FlatsFit done (flat_at calls.now.file.bytes.now calls.now.file.sections rows.old level k m)
        (length out.old) }
    ensures { FlatsPut done out.old (flat_at calls.now.file.bytes.now calls.now.file.sections rows.old level k m)
        result out.new
        × RowsKept calls.now.file.bytes.now calls.now.file.sections level rows.old rows.new }
{
    if k == 0 {
        return done;
    }
    let first = calls.file.model(m, MODEL_FIRST_STMT);
    let count = calls.file.model(m, MODEL_STMTS);
    let mut total = done;
    for q in first..first + count {
        total = write_stmt(calls, rows, k - 1, q, level, out, total);
    }
    total
}

// Writes what statement q brings in.
#[cycle(write_flats_write_stmt)]
fn write_stmt(
    calls: &Calls,
    rows: &mut [u16],
    k: usize,
    q: usize,
    level: usize,
    out: &mut [u8],
    done: Written,
) -> Written
    requires { (q < calls.now.file.sections.counts.stmts)
        × RowsAt calls.now.file.bytes.now calls.now.file.sections rows.old (level + k + 1)
        × FlatsFit done (brought_at calls.now.file.bytes.now calls.now.file.sections rows.old level
        (λ j. flatten (file_seen calls.now.file) k j) q) (length out.old) }
    ensures { FlatsPut done out.old (brought_at calls.now.file.bytes.now calls.now.file.sections rows.old level
        (λ j. flatten (file_seen calls.now.file) k j) q) result out.new
        × RowsKept calls.now.file.bytes.now calls.now.file.sections level rows.old rows.new }
{
    if !calls.file.is_stmt(q, StmtKind::Submodel) {
        return write_own(&calls.file, rows, level, q, out, done);
    }
    match calls.callee(q) {
        Some(c) if k != 0 => {
            let call = calls.file.stmt(q, STMT_RIGHT);
            find_replacements(&calls.file, c, call, rows, level);
            write_flats(calls, rows, k, c, level + 1, out, done)
        },
        _ => done,
    }
}
