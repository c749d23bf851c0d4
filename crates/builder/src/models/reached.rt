// The models reached from the root, and the refusals 6, 7 and 8 among them.
ghost use Rattle.std.specs.Prelude.{ℕ, Bool, ◌≡◌, cond, ◌||◌, ◌+◌, ◌-◌, ◌<◌, eqb, length};
ghost use Rattle.functions.specs.Lists.{any};
ghost use Rattle.ast.specs.Nodes.{kind_at, op_at, size_at, args_before};
ghost use Rattle.ast.specs.Views.{contents_seen, file_seen};
ghost use Rattle.definitions.specs.Numbers.{call_kind};
ghost use Rattle.definitions.specs.Flatten as flatten;
ghost use Rattle.builder.specs.Tables.{ReachedIn};
ghost use Rattle.builder.specs.Checking.{unknown_in, stmt_in};
ghost use Rattle.builder.specs.Rounds.{model_pairs, onward, Added, Stepped, RowsOf};

use crate::models::scope::names_dep;
use crate::names::{Class, is_reserved};
use crate::numbers::{MODEL_PAIRS, NEXT_DIAGONAL};
use crate::source::{Calls, Classed};
use ast::layout::{
    MODEL_FIRST_STMT, MODEL_FIRST_UNKNOWN, MODEL_STMTS, MODEL_UNKNOWNS, MOST_MODELS, NODE_NAME,
    NODE_OP, NODE_SIZE, STMT_RIGHT, UNKNOWN_NAME,
};
use ast::view::View;

// 1 where y is 1, else x. A choice and no branch: the compiler then does many entries of a row at once, and without
// it a build of 32 models deep takes half as long again.
fn either(x: u8, y: u8) -> u8
    ensures { result ≡ cond (eqb y 1) 1 x }
{
    if y == 1 { 1 } else { x }
}

// Adds to row a model c and the models that `old` says are reached from it.
// By number: both rows stand in flat tables.
fn add_reached(old: &[u8], models: usize, c: usize, new: &mut [u8], a: usize)
    requires { RowsOf models c a old.now new.old }
    ensures { Added models a (λ y. onward old.now y c) new.old new.new }
{
    for b in 0..models {
        new[MOST_MODELS * a + b] = either(new[MOST_MODELS * a + b], old[MOST_MODELS * c + b]);
    }
    new[MOST_MODELS * a + c] = 1;
}

// The same for the model that statement q calls, if it calls one.
fn add_called(calls: &Calls, old: &[u8], q: usize, new: &mut [u8], a: usize)
    requires { (length old.now ≡ model_pairs)
        × (length new.old ≡ model_pairs)
        × (q < calls.now.file.sections.counts.stmts)
        × (a < calls.now.file.sections.counts.models) }
    ensures { Added calls.now.file.sections.counts.models a (λ y. any (onward old.now y)
        (flatten.stmt_models (file_seen calls.now.file)
        (stmt_in calls.now.file.bytes.now calls.now.file.sections q))) new.old new.new }
{
    if let Some(c) = calls.callee(q) {
        add_reached(old, calls.file.sections.counts.models, c, new, a);
    }
}

// Row a of the next table: what model a's statements add.
// The tables go as slices with their length as a clause: the new one is filled row by row.
fn reach_row(calls: &Calls, old: &[u8], a: usize, new: &mut [u8])
    requires { (length old.now ≡ model_pairs)
        × (a < calls.now.file.sections.counts.models)
        × Stepped (file_seen calls.now.file) calls.now.file.sections.counts.models old.now a new.old }
    ensures { Stepped (file_seen calls.now.file) calls.now.file.sections.counts.models old.now (a + 1)
        new.new }
{
    let first = calls.file.model(a, MODEL_FIRST_STMT);
    let count = calls.file.model(a, MODEL_STMTS);
    for q in first..first + count {
        add_called(calls, old, q, new, a);
    }
}

// The next table: one step more.
fn reach_round(calls: &Calls, old: &[u8]) -> [u8; MODEL_PAIRS]
    requires { length old.now ≡ model_pairs }
    ensures { Stepped (file_seen calls.now.file) calls.now.file.sections.counts.models old.now
        calls.now.file.sections.counts.models result }
{
    let mut new = [0u8; MODEL_PAIRS];
    for a in 0..calls.file.sections.counts.models {
        reach_row(calls, old, a, &mut new);
    }
    new
}

// Whether model b is reached from model a, at 32 a + b: one flat table, since `Reaching` speaks of one list.
// 0 and 1 and no bools: its `flag` has them so, and whole rows are joined at once (`either`).
pub fn reach(calls: &Calls) -> [u8; MODEL_PAIRS]
    ensures { ReachedIn calls.now.file.bytes.now calls.now.file.sections result }
{
    let mut table = [0u8; MODEL_PAIRS];
    for _ in 0..calls.file.sections.counts.models {
        table = reach_round(calls, &table);
    }
    table
}

// Whether model m is the root or reached from it.
fn is_reached(file: &View, table: &[u8; MODEL_PAIRS], root: usize, m: usize) -> bool
    requires { ReachedIn file.now.bytes.now file.now.sections table.now
        × (root < file.now.sections.counts.models)
        × (m < file.now.sections.counts.models) }
    ensures { result ≡ (eqb m root || flatten.reached (file_seen file.now) root m) }
{
    m == root || table[MOST_MODELS * root + m] == 1
}

// Whether unknown u, t or unreserved, lists itself.
fn lists_itself(names: &Classed, u: usize) -> bool
    requires { u < names.now.file.sections.counts.unknowns }
    ensures { result ≡ flatten.lists_itself (file_seen names.now.file)
        (unknown_in names.now.file.bytes.now names.now.file.sections u) }
{
    let name = names.file.unknown(u, UNKNOWN_NAME);
    let class = names.classes[name];
    let usable = (class == Class::Time) | !is_reserved(class);
    usable && names_dep(&names.file, u, name)
}

// Whether a positional argument of a call has a number that is not below n.
// It goes back from the call by the sizes of arguments, as `fill_row` and `arg_at` do. The place is kept beside the
// loop, since an argument's place is known only from the one behind it.
fn beyond(file: &View, call: usize, n: usize) -> bool
    requires { (call < file.now.sections.counts.nodes)
        × (kind_at (contents_seen file.now).nodes call ≡ call_kind) }
    ensures { result ≡ flatten.args_beyond n (args_before (contents_seen file.now).nodes call
        (op_at (contents_seen file.now).nodes call) (size_at (contents_seen file.now).nodes call - 1)) }
{
    let mut end = call;
    let count = file.node(call, NODE_OP);
    for left in (0..count).rev() {
        let top = end - 1;
        if file.node(top, NODE_NAME) == 0 && n <= left {
            return true;
        }
        end -= file.node(top, NODE_SIZE);
    }
    false
}

// Whether statement q calls a model with a positional argument whose number is not below the model's count of unknowns.
fn too_many(calls: &Calls, q: usize) -> bool
    requires { q < calls.now.file.sections.counts.stmts }
    ensures { result ≡ flatten.stmt_beyond (file_seen calls.now.file)
        (stmt_in calls.now.file.bytes.now calls.now.file.sections q) }
{
    let Some(c) = calls.callee(q) else {
        return false;
    };
    let call = calls.file.stmt(q, STMT_RIGHT);
    beyond(&calls.file, call, calls.file.model(c, MODEL_UNKNOWNS))
}

// Whether a model, the root or reached from it, passes a test.
fn any_reached<F: Fn(usize) -> bool>(
    file: &View,
    table: &[u8; MODEL_PAIRS],
    root: usize,
    test: F,
) -> bool
    requires { ReachedIn file.now.bytes.now file.now.sections table.now
        × (root < file.now.sections.counts.models)
        × ((m : ℕ) → m < file.now.sections.counts.models → F.pre test m) }
    ensures { (p : ℕ → Bool) → ((m : ℕ) (b : Bool) → F.post test m b → b ≡ p m)
        → result ≡ flatten.any_reached (file_seen file.now) root p (length (file_seen file.now).models) }
{
    (0..file.sections.counts.models)
        .filter(|m| is_reached(file, table, root, *m))
        .any(test)
}

// Whether a model, the root or reached from it, is reached from itself.
pub fn cyclic(file: &View, table: &[u8; MODEL_PAIRS], root: usize) -> bool
    requires { ReachedIn file.now.bytes.now file.now.sections table.now
        × (root < file.now.sections.counts.models) }
    ensures { result ≡ flatten.cyclic (file_seen file.now) root }
{
    any_reached(file, table, root, |m| table[NEXT_DIAGONAL * m] == 1)
}

// Whether an unknown of model m lists itself.
fn has_self_listed(names: &Classed, m: usize) -> bool
    requires { m < names.now.file.sections.counts.models }
    ensures { result ≡ any (flatten.lists_itself (file_seen names.now.file))
        (flatten.model_at (file_seen names.now.file) m).unknowns }
{
    let first = names.file.model(m, MODEL_FIRST_UNKNOWN);
    let count = names.file.model(m, MODEL_UNKNOWNS);
    (first..first + count).any(|u| lists_itself(names, u))
}

// Whether a model, the root or reached from it, has an unknown that lists itself.
pub fn self_listed(names: &Classed, table: &[u8; MODEL_PAIRS], root: usize) -> bool
    requires { (root < names.now.file.sections.counts.models)
        × ReachedIn names.now.file.bytes.now names.now.file.sections table.now }
    ensures { result ≡ flatten.self_listed (file_seen names.now.file) root }
{
    any_reached(&names.file, table, root, |m| has_self_listed(names, m))
}

// Whether a statement of model m calls a model with an argument beyond that model's unknowns.
// As `has_self_listed`, with a function of its own for its contract: the definition's test of one model.
fn has_too_many(calls: &Calls, m: usize) -> bool
    requires { m < calls.now.file.sections.counts.models }
    ensures { result ≡ any (flatten.stmt_beyond (file_seen calls.now.file))
        (flatten.model_at (file_seen calls.now.file) m).stmts }
{
    let first = calls.file.model(m, MODEL_FIRST_STMT);
    let count = calls.file.model(m, MODEL_STMTS);
    (first..first + count).any(|q| too_many(calls, q))
}

// Whether a model, the root or reached from it, has such a statement.
pub fn overfull(calls: &Calls, table: &[u8; MODEL_PAIRS], root: usize) -> bool
    requires { ReachedIn calls.now.file.bytes.now calls.now.file.sections table.now
        × (root < calls.now.file.sections.counts.models) }
    ensures { result ≡ flatten.overfull (file_seen calls.now.file) root }
{
    any_reached(&calls.file, table, root, |m| has_too_many(calls, m))
}
