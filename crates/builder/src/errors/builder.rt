// `builder`: the errors of a model and of the submodels that it calls, in the order of the Rust.
ghost use Rattle.std.specs.Prelude.{◌≡◌, [], ℕ, ◌^◌, ◌≤◌, ◌<◌, get_or};
ghost use Rattle.functions.specs.Lists.{unless, each};
ghost use Rattle.ast.specs.Records.{kind_of_stmt, span_of_unknown};
ghost use Rattle.ast.specs.Views.{nodes_seen, contents_seen, file_seen};
ghost use Rattle.definitions.specs.Numbers.{most_models, submodel_kind};
ghost use Rattle.definitions.specs.Variables.{error, domain_errors, unknown_errors};
ghost use Rattle.definitions.specs.Check.{Scope};
ghost use Rattle.definitions.specs.Flatten.{model_at, order_errors, errors_of};
ghost use Rattle.area.specs.Listing.{kind_number, error_as, found_as};
ghost use Rattle.area.specs.LentList.{Listed, RoomFor};
ghost use Rattle.builder.specs.Checking.{args_in, unknown_in, own_errors, missing_at};
ghost use Rattle.builder.specs.Checking.{ArgsIn, StmtAt, Scoped};
ghost use Rattle.builder.specs.Seen.{scope_seen, errors_seen};

use crate::errors::check::{Run, before_last, check_expr, found_at, has_keyword, run_of};
use crate::errors::checked::{Checked, Tables};
use crate::models::scope::{model_vars, no_marks};
use crate::names::{Class, is_reserved};
use crate::source::{Calls, Classed};
use area::errors::{ErrorKind, Errors, Found};
use ast::kinds::StmtKind;
use ast::layout::{
    MODEL_FIRST_STMT, MODEL_FIRST_UNKNOWN, MODEL_STMTS, MODEL_UNKNOWNS, MOST_NAMES, NODE_NAME,
    STMT_FROM, STMT_LEFT, STMT_RIGHT, STMT_TO, UNKNOWN_FROM, UNKNOWN_NAME, UNKNOWN_TO,
};
use ast::numbers::Domain;
use ast::places::NodeView;
use ast::view::View;

// Statement `stmt` of a model, submodels gone through to a depth of so many models.
#[derive(Clone, Copy)]
struct Place {
    model: usize,
    stmt: usize,
    depth: usize,
}

// An error with the span of unknown u, unless a test passed.
// As with `found_at`, the test goes in. Nodes, unknowns, statements and models have their spans at different words:
// each error reads its span where it is found, and no one function reads them all.
fn unknown_error(file: &View, u: usize, passed: bool, kind: ErrorKind, name: usize) -> Option<Found>
    requires { (u < file.now.sections.counts.unknowns)
        × (name < 2 ^ 32) }
    ensures { found_as result
        ≡ unless passed (error (kind_number kind) (span_of_unknown (get_or (contents_seen file.now).unknowns u [])) name) }
{
    if passed {
        return None;
    }
    let from = file.unknown(u, UNKNOWN_FROM) as u32;
    let to = file.unknown(u, UNKNOWN_TO) as u32;
    let word = name as u32;
    Some(Found {
        kind,
        from,
        to,
        name: word,
    })
}

// Error 1: an unknown domain.
fn domain_error(names: &Classed, u: usize) -> Option<Found>
    requires { u < names.now.file.sections.counts.unknowns }
    ensures { found_as result
        ≡ domain_errors (file_seen names.now.file).names
        (unknown_in names.now.file.bytes.now names.now.file.sections u).span
        (unknown_in names.now.file.bytes.now names.now.file.sections u).domain }
{
    match names.file.domain(u) {
        Domain::None => None,
        Domain::Span(_, _) => None,
        Domain::Named(n) => {
            let name = n as usize;
            let class = names.classes[name];
            let known = (class == Class::NonNegative) | (class == Class::Real);
            unknown_error(&names.file, u, known, ErrorKind::UnknownDomain, name + 1)
        }
    }
}

// Errors 1 and 2 of unknown u.
fn unknown_errors(names: &Classed, u: usize, errors: &mut Errors)
    requires { (u < names.now.file.sections.counts.unknowns)
        × RoomFor errors.old
        (unknown_errors (file_seen names.now.file).names
        (unknown_in names.now.file.bytes.now names.now.file.sections u)) }
    ensures { Listed errors.old
        (unknown_errors (file_seen names.now.file).names
        (unknown_in names.now.file.bytes.now names.now.file.sections u)) errors.new }
{
    errors.list(domain_error(names, u));
    let name = names.file.unknown(u, UNKNOWN_NAME);
    let class = names.classes[name];
    let usable = !is_reserved(class) | (class == Class::Time);
    errors.list(unknown_error(&names.file, u, usable, ErrorKind::ReservedName, name + 1));
}

// The same of the unknowns of model m.
fn unknowns_errors(names: &Classed, m: usize, errors: &mut Errors)
    requires { (m < names.now.file.sections.counts.models)
        × RoomFor errors.old
        (each (unknown_errors (file_seen names.now.file).names) (model_at (file_seen names.now.file) m).unknowns) }
    ensures { Listed errors.old
        (each (unknown_errors (file_seen names.now.file).names) (model_at (file_seen names.now.file) m).unknowns)
        errors.new }
{
    let first = names.file.model(m, MODEL_FIRST_UNKNOWN);
    let unknowns = names.file.model(m, MODEL_UNKNOWNS);
    for u in first..first + unknowns {
        unknown_errors(names, u, errors);
    }
}

// Error 4 for each positional argument after a keyword, in order.
fn order_errors(ns: &NodeView, run: Run, errors: &mut Errors)
    requires { ((names : ℕ) × ArgsIn names ns.now.bytes.now ns.now.nodes run)
        × RoomFor errors.old (order_errors (args_in (nodes_seen ns.now) run)) }
    ensures { Listed errors.old (order_errors (args_in (nodes_seen ns.now) run)) errors.new }
{
    if run.args == 0 {
        return;
    }
    let last = run.end - 1;
    let rest = before_last(ns, run);
    order_errors(ns, rest, errors);
    let keyword = ns.word(last, NODE_NAME);
    let named = has_keyword(ns, rest);
    let passed = (keyword != 0) | !named;
    let found = found_at(ns, last, passed, ErrorKind::PositionalAfterKeyword, 0);
    errors.list(found);
}

// Error 3: submodel statement q, whose model is missing.
fn missing_error(file: &View, q: usize) -> Found
    requires { (q < file.now.sections.counts.stmts)
        × (kind_of_stmt (get_or (contents_seen file.now).stmts q []) ≡ submodel_kind) }
    ensures { error_as result ≡ missing_at file.now.bytes.now file.now.sections q }
{
    let from = file.stmt(q, STMT_FROM) as u32;
    let to = file.stmt(q, STMT_TO) as u32;
    let name = file.node(file.stmt(q, STMT_RIGHT), NODE_NAME);
    let word = (name + 1) as u32;
    Found {
        kind: ErrorKind::SubmodelMissing,
        from,
        to,
        name: word,
    }
}

// The errors of an equation or a rate equation, statement q of model m.
fn own_errors(tables: &Tables, vars: &[u16; MOST_NAMES], m: usize, q: usize, errors: &mut Errors)
    requires { Scoped tables.now.names.file.bytes.now tables.now.names.file.sections m vars.now
        × (q < tables.now.names.file.sections.counts.stmts)
        × (kind_of_stmt (get_or (contents_seen tables.now.names.file).stmts q []) < submodel_kind)
        × RoomFor errors.old (own_errors tables.now.names.file.bytes.now tables.now.names.file.sections m q) }
    ensures { Listed errors.old (own_errors tables.now.names.file.bytes.now tables.now.names.file.sections m q)
        errors.new }
{
    let file = &tables.names.file;
    let at = Checked {
        nodes: file.nodes(),
        tables,
        model: m,
        vars,
    };
    let right = file.stmt(q, STMT_RIGHT);
    check_expr(&at, right, errors);
    if file.is_stmt(q, StmtKind::Rate) {
        return;
    }
    let left = file.stmt(q, STMT_LEFT);
    check_expr(&at, left, errors);
}

// The errors that the submodel statement q brings in: those of the model that it calls, to a depth of k models, and
// then those of its own arguments. No scope plays a part in them.
#[cycle(add_submodel_builder_stmt_errors)]
fn add_submodel(calls: &Calls, tables: &Tables, k: usize, q: usize, errors: &mut Errors)
    requires { StmtAt tables.now.names.file.sections q k
        × (kind_of_stmt (get_or (contents_seen tables.now.names.file).stmts q []) ≡ submodel_kind)
        × ((c : Scope) → RoomFor errors.old (errors_seen tables.now.names.file k c q))
        × (calls.now.file ≡ tables.now.names.file) }
    ensures { (c : Scope) → Listed errors.old (errors_seen tables.now.names.file k c q) errors.new }
{
    let file = &tables.names.file;
    let Some(c) = calls.callee(q) else {
        return errors.put(missing_error(file, q));
    };
    builder(calls, tables, k, c, errors);
    let nodes = file.nodes();
    let run = run_of(&nodes, file.stmt(q, STMT_RIGHT));
    order_errors(&nodes, run, errors);
}

// The errors of the statement at a place.
#[cycle(add_submodel_builder_stmt_errors)]
fn stmt_errors(
    calls: &Calls,
    tables: &Tables,
    vars: &[u16; MOST_NAMES],
    place: Place,
    errors: &mut Errors,
)
    requires { Scoped tables.now.names.file.bytes.now tables.now.names.file.sections place.model vars.now
        × StmtAt tables.now.names.file.sections place.stmt place.depth
        × RoomFor errors.old
        (errors_seen tables.now.names.file place.depth (scope_seen tables.now.names.file place.model) place.stmt)
        × (calls.now.file ≡ tables.now.names.file) }
    ensures { Listed errors.old
        (errors_seen tables.now.names.file place.depth (scope_seen tables.now.names.file place.model) place.stmt)
        errors.new }
{
    let q = place.stmt;
    if !tables.names.file.is_stmt(q, StmtKind::Submodel) {
        return own_errors(tables, vars, place.model, q, errors);
    }
    add_submodel(calls, tables, place.depth, q, errors);
}

// The errors of model m, to a depth of k models.
#[cycle(add_submodel_builder_stmt_errors)]
pub fn builder(calls: &Calls, tables: &Tables, k: usize, m: usize, errors: &mut Errors)
    requires { (m < tables.now.names.file.sections.counts.models)
        × (k ≤ most_models)
        × RoomFor errors.old (errors_of (file_seen tables.now.names.file) k m)
        × (calls.now.file ≡ tables.now.names.file) }
    ensures { Listed errors.old (errors_of (file_seen tables.now.names.file) k m) errors.new }
{
    if k == 0 {
        return;
    }
    let names = &tables.names;
    let mut vars = no_marks();
    model_vars(names, m, &mut vars);
    let first = names.file.model(m, MODEL_FIRST_STMT);
    let stmts = names.file.model(m, MODEL_STMTS);
    unknowns_errors(names, m, errors);
    for q in first..first + stmts {
        let place = Place {
            model: m,
            stmt: q,
            depth: k - 1,
        };
        stmt_errors(calls, tables, &vars, place, errors);
    }
}
