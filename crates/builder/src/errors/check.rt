// `check_expr`: the errors of an expression, in the order of the Rust. An argument list holds expressions and an
// expression may be a call with arguments. The nodes, of the bytes b, are the file's or those of an answer's area.
ghost use Rattle.std.specs.Prelude.{◌≡◌, true, ℕ, ◌+◌, ◌^◌, ◌<◌, eqb};
ghost use Rattle.functions.specs.Lists.{unless, is_some};
ghost use Rattle.ast.specs.Nodes.{name_at, span_at, tree_at};
ghost use Rattle.ast.specs.Views.{nodes_seen};
ghost use Rattle.definitions.specs.Numbers.{most_names};
ghost use Rattle.definitions.specs.Variables.{error};
ghost use Rattle.definitions.specs.Check.{lookup, has_keyword, keyword_errors, expr_errors, args_errors};
ghost use Rattle.area.specs.Listing.{kind_number, found_as};
ghost use Rattle.area.specs.LentList.{Listed, RoomFor};
ghost use Rattle.builder.specs.Checking.{args_in, before_last, run_of, dependents_at};
ghost use Rattle.builder.specs.Checking.{variable_at, call_at, name_absent, CallIn, ArgsIn};
ghost use Rattle.builder.specs.Seen.{scope_checked, nodes_checked, ExprOf, CallOf, ArgsOf};

use crate::errors::checked::Checked;
use crate::models::scope::is_dep_of;
use crate::names::is_built_in;
use area::errors::{ErrorKind, Errors, Found};
use ast::kinds::NodeKind;
use ast::layout::{NODE_FROM, NODE_NAME, NODE_OP, NODE_SIZE, NODE_TO};
use ast::places::NodeView;
use functions::rule_allows;

// Arguments before node `end`: how many, and how many nodes they have in all.
// It has no fact of its own: that arguments lie there is a fact of the nodes too, which a run does not hold.
#[derive(Clone, Copy)]
pub struct Run {
    pub end: usize,
    pub args: usize,
    pub total: usize,
}

// An error with the span of node i, unless a test passed.
// Whether the test passed goes in with the rest, so that an error's words are read only where it did not.
pub fn found_at(
    ns: &NodeView,
    i: usize,
    passed: bool,
    kind: ErrorKind,
    name: usize,
) -> Option<Found>
    requires { (i < ns.now.nodes.count)
        × (name < 2 ^ 32) }
    ensures { found_as result ≡ unless passed (error (kind_number kind) (span_at (nodes_seen ns.now) i) name) }
{
    if passed {
        return None;
    }
    let from = ns.field(i, NODE_FROM);
    let to = ns.field(i, NODE_TO);
    let word = name as u32;
    Some(Found {
        kind,
        from,
        to,
        name: word,
    })
}

// The run without its last argument.
pub fn before_last(ns: &NodeView, run: Run) -> Run
    requires { ((names : ℕ) × ArgsIn names ns.now.bytes.now ns.now.nodes run)
        × (0 < run.args) }
    ensures { result ≡ before_last (nodes_seen ns.now) run }
{
    let size = ns.word(run.end - 1, NODE_SIZE);
    let end = run.end - size;
    let args = run.args - 1;
    let total = run.total - size;
    Run { end, args, total }
}

// The arguments of the call at node i.
pub fn run_of(ns: &NodeView, i: usize) -> Run
    requires { (names : ℕ) × CallIn names ns.now.bytes.now ns.now.nodes i }
    ensures { (result ≡ run_of (nodes_seen ns.now) i)
        × (result.args < 2 ^ 32) }
{
    let args = ns.word(i, NODE_OP);
    let total = ns.word(i, NODE_SIZE) - 1;
    Run {
        end: i,
        args,
        total,
    }
}

// Whether an argument of the run bears a keyword.
// A keyword goes as its node's word, its name plus 1, or 0 for none: most tests only ask whether there is one.
// By descent, as the others here: a run steps to the argument before by the last one's size.
pub fn has_keyword(ns: &NodeView, run: Run) -> bool
    requires { (names : ℕ) × ArgsIn names ns.now.bytes.now ns.now.nodes run }
    ensures { result ≡ has_keyword (args_in (nodes_seen ns.now) run) }
{
    if run.args == 0 {
        return false;
    }
    if ns.word(run.end - 1, NODE_NAME) != 0 {
        return true;
    }
    has_keyword(ns, before_last(ns, run))
}

// Error 7 for each keyword of a built-in's arguments, in order.
// `order_errors`, `arg_errors` and `check_args` go along a run in the same way. One descent for all, with a closure
// for an argument, would carry the closure's contract beside that of the errors listed, and be longer than the four.
fn keyword_errors(ns: &NodeView, run: Run, errors: &mut Errors)
    requires { ((names : ℕ) × ArgsIn names ns.now.bytes.now ns.now.nodes run)
        × RoomFor errors.old (keyword_errors (args_in (nodes_seen ns.now) run)) }
    ensures { Listed errors.old (keyword_errors (args_in (nodes_seen ns.now) run)) errors.new }
{
    if run.args == 0 {
        return;
    }
    let last = run.end - 1;
    keyword_errors(ns, before_last(ns, run), errors);
    let keyword = ns.word(last, NODE_NAME);
    let found = found_at(ns, last, keyword == 0, ErrorKind::KeywordInBuiltIn, keyword);
    errors.list(found);
}

// Errors 9 and 10 of the arguments of a variable's call, in order.
fn arg_errors(at: &Checked, variable: usize, run: Run, errors: &mut Errors)
    requires { (is_some (lookup (scope_checked at.now) variable) ≡ true)
        × ArgsOf at.now run
        × RoomFor errors.old
        (dependents_at (scope_checked at.now) variable (args_in (nodes_checked at.now) run)) }
    ensures { Listed errors.old
        (dependents_at (scope_checked at.now) variable (args_in (nodes_checked at.now) run)) errors.new }
{
    if run.args == 0 {
        return;
    }
    let last = run.end - 1;
    let rest = before_last(&at.nodes, run);
    arg_errors(at, variable, rest, errors);
    let keyword = at.nodes.word(last, NODE_NAME);
    if keyword == 0 {
        let named = has_keyword(&at.nodes, rest);
        let found = found_at(&at.nodes, last, !named, ErrorKind::PositionalAfterNamed, 0);
        return errors.list(found);
    }
    let kept = is_dep_of(
        &at.tables.names.file,
        at.vars,
        at.model,
        variable,
        keyword - 1,
    );
    let found = found_at(&at.nodes, last, kept, ErrorKind::NoSuchDependent, keyword);
    errors.list(found);
}

// Whether a variable's entry says that it has `args` kept dependents.
fn is_count(entry: u16, args: usize) -> bool
    requires { args < 2 ^ 32 }
    ensures { result ≡ eqb entry (args + 1) }
{
    entry as usize == args + 1
}

// Errors 8 to 11 of a call that is no built-in's.
fn variable_errors(at: &Checked, i: usize, errors: &mut Errors)
    requires { CallOf at.now i
        × RoomFor errors.old (variable_at (scope_checked at.now) (nodes_checked at.now) i) }
    ensures { Listed errors.old
        (variable_at (scope_checked at.now) (nodes_checked at.now) i) errors.new }
{
    let name = at.nodes.word(i, NODE_NAME);
    let run = run_of(&at.nodes, i);
    let entry = at.vars[name];
    if entry == 0 {
        let found = found_at(&at.nodes, i, false, ErrorKind::CallNotFound, name + 1);
        return errors.list(found);
    }
    let counted = is_count(entry, run.args);
    let found = found_at(
        &at.nodes,
        i,
        counted,
        ErrorKind::CountAgainstVariable,
        name + 1,
    );
    errors.list(found);
    arg_errors(at, name, run, errors);
}

// The errors of a call itself.
fn call_errors(at: &Checked, i: usize, errors: &mut Errors)
    requires { CallOf at.now i
        × RoomFor errors.old (call_at (scope_checked at.now) (nodes_checked at.now) i) }
    ensures { Listed errors.old
        (call_at (scope_checked at.now) (nodes_checked at.now) i) errors.new }
{
    let name = at.nodes.word(i, NODE_NAME);
    let run = run_of(&at.nodes, i);
    let tables = at.tables;
    let allowed = rule_allows(tables.rules[name], run.args);
    let found = found_at(
        &at.nodes,
        i,
        allowed,
        ErrorKind::CountAgainstTable,
        name + 1,
    );
    errors.list(found);
    if is_built_in(tables.names.classes[name]) {
        return keyword_errors(&at.nodes, run, errors);
    }
    variable_errors(at, i, errors);
}

// Error 5 of an expression that is a name: it has no entry.
fn name_error(at: &Checked, i: usize) -> Option<Found>
    requires { (i < at.now.nodes.nodes.count)
        × (name_at (nodes_checked at.now) i < most_names) }
    ensures { found_as result ≡ name_absent (nodes_checked at.now) at.now.vars.now i }
{
    let name = at.nodes.word(i, NODE_NAME);
    let known = at.vars[name] != 0;
    found_at(&at.nodes, i, known, ErrorKind::NameNotFound, name + 1)
}

// The errors of the expression at node i.
#[cycle(check_args_check_expr)]
pub fn check_expr(at: &Checked, i: usize, errors: &mut Errors)
    requires { ExprOf at.now i
        × RoomFor errors.old (expr_errors (scope_checked at.now) (tree_at (nodes_checked at.now) i)) }
    ensures { Listed errors.old
        (expr_errors (scope_checked at.now) (tree_at (nodes_checked at.now) i)) errors.new }
{
    match at.nodes.kind(i) {
        Ok(NodeKind::Name) => errors.list(name_error(at, i)),
        Ok(NodeKind::Number) => {}
        Ok(NodeKind::Binary) => {
            let right = i - 1;
            let left = right - at.nodes.word(right, NODE_SIZE);
            check_expr(at, left, errors);
            check_expr(at, right, errors);
        }
        Ok(NodeKind::Unary) => check_expr(at, i - 1, errors),
        Ok(NodeKind::Call) => {
            call_errors(at, i, errors);
            let run = run_of(&at.nodes, i);
            check_args(at, run, errors);
        }
        Ok(NodeKind::Argument) => unreachable!(),
        Err(_) => unreachable!(),
    }
}

// The errors of the arguments of a run.
#[cycle(check_args_check_expr)]
fn check_args(at: &Checked, run: Run, errors: &mut Errors)
    requires { ArgsOf at.now run
        × RoomFor errors.old (args_errors (scope_checked at.now) (args_in (nodes_checked at.now) run)) }
    ensures { Listed errors.old
        (args_errors (scope_checked at.now) (args_in (nodes_checked at.now) run)) errors.new }
{
    if run.args == 0 {
        return;
    }
    let last = run.end - 1;
    let rest = before_last(&at.nodes, run);
    check_args(at, rest, errors);
    check_expr(at, last - 1, errors);
}
