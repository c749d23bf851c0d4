// The errors 14 to 17 of an answer: on the counts of statements and states, and on the states' initial conditions.
ghost use Rattle.std.specs.Prelude.{◌<◌, get_or, ◌≡◌};
ghost use Rattle.functions.specs.Lists.{place};
ghost use Rattle.ast.specs.Views.{file_seen};
ghost use Rattle.definitions.specs.Numbers.{algebraic_initial_condition, initial_fate};
ghost use Rattle.definitions.specs.Variables.{error};
ghost use Rattle.definitions.specs.Flatten.{model_at};
ghost use Rattle.definitions.specs.Allocate.{count_errors};
ghost use Rattle.area.specs.Views.{nodes_seen, stmts_seen, stmt_seen};
ghost use Rattle.area.specs.Listing.{kind_number, error_as, found_as};
ghost use Rattle.area.specs.LentList.{Listed};
ghost use Rattle.builder.specs.Areas.{names_seen, RightedSeen};
ghost use Rattle.builder.specs.Fating.{is_fated};
ghost use Rattle.builder.specs.Starting.{place_as, Conditions, right_span_in, state_errors_in, starting_in};

use crate::allocation::statements::Left;
use area::errors::{ErrorKind, Errors, Found};
use area::layout::{Fate, STMT_VARIABLE, VAR_HELD, VAR_INITIAL, VAR_NAME};
use area::records::Area;
use ast::kinds::StmtKind;
use ast::layout::{MODEL_FROM, MODEL_TO, NODE_FROM, NODE_TO, STMT_RIGHT};
use ast::view::View;
use std::cmp::Ordering;

// What is found wrong with model m as a whole.
// File, model and area go by themselves here: each test asks for one or two of them.
fn model_error(file: &View, m: usize, kind: ErrorKind, name: u32) -> Found
    requires { m < file.now.sections.counts.models }
    ensures { error_as result ≡ error (kind_number kind) (model_at (file_seen file.now) m).span name }
{
    let from = file.model(m, MODEL_FROM) as u32;
    let to = file.model(m, MODEL_TO) as u32;
    Found {
        kind,
        from,
        to,
        name,
    }
}

// Errors 14 and 15: other than as many statements left as states lacking an equation.
pub fn count_error(file: &View, m: usize, left: Left) -> Option<Found>
    requires { m < file.now.sections.counts.models }
    ensures { found_as result ≡ count_errors (model_at (file_seen file.now) m).span left.stmts
        left.states }
{
    match left.stmts.cmp(&left.states) {
        Ordering::Equal => None,
        Ordering::Less => Some(model_error(file, m, ErrorKind::Underdetermined, 0)),
        Ordering::Greater => Some(model_error(file, m, ErrorKind::Overdetermined, 0)),
    }
}

// Error 17, at the right side of statement i.
fn condition_error(area: &Area, i: usize, name: u32) -> Found
    requires { RightedSeen area.now
        × (i < area.now.sizes.stmts) }
    ensures { error_as result ≡ error algebraic_initial_condition
        (right_span_in (nodes_seen area.now) (stmts_seen area.now) i) name }
{
    let right = area.stmt(i, STMT_RIGHT);
    let from = area.node_word(right, NODE_FROM);
    let to = area.node_word(right, NODE_TO);
    Found {
        kind: ErrorKind::AlgebraicInitialCondition,
        from,
        to,
        name,
    }
}

// Whether statement i is an initial condition of variable v.
fn is_condition(area: &Area, i: usize, v: usize) -> bool
    requires { RightedSeen area.now
        × (i < area.now.sizes.stmts) }
    ensures { result ≡ is_fated initial_fate v (stmt_seen area.now i) }
{
    area.is_fated(i, Fate::Initial) & (area.stmt(i, STMT_VARIABLE) == v)
}

// The first initial condition of variable v.
fn first_condition(area: &Area, v: usize) -> Option<usize>
    requires { RightedSeen area.now }
    ensures { place_as result ≡ place (is_fated initial_fate v) (stmts_seen area.now) }
{
    (0..area.sizes.stmts).find(|i| is_condition(area, *i, v))
}

// Errors 16 and 17 of variable v, by what its record says that it holds.
// Two tests: with both it is error 16, with one alone there is no error, and with neither it goes on to error 17.
fn state_error(file: &View, m: usize, area: &Area, v: usize) -> Option<Found>
    requires { (m < file.now.sections.counts.models)
        × RightedSeen area.now
        × (v < area.now.sizes.vars) }
    ensures { found_as result ≡ state_errors_in (model_at (file_seen file.now) m).span
        (nodes_seen area.now) (stmts_seen area.now)
        (get_or (names_seen area.now) v 0) v }
{
    let held = area.var(v, VAR_HELD).checked_sub(1)? as usize;
    let none = area.var(v, VAR_INITIAL) == 0;
    let rate = area.is_stmt(held, StmtKind::Rate);
    if rate & none {
        let name = area.var(v, VAR_NAME);
        return Some(model_error(file, m, ErrorKind::NoInitialCondition, name));
    }
    if rate | none {
        return None;
    }
    let i = first_condition(area, v)?;
    Some(condition_error(area, i, area.var(v, VAR_NAME)))
}

// Errors 16 and 17 of all variables.
pub fn starting_errors(file: &View, m: usize, area: &Area, errors: &mut Errors)
    requires { Conditions file.now.bytes.now file.now.sections m area.now.bytes.now area.now.sizes errors.old.count }
    ensures { Listed errors.old (starting_in (model_at (file_seen file.now) m).span
        (nodes_seen area.now) (stmts_seen area.now) (names_seen area.now) area.now.sizes.vars) errors.new }
{
    for v in 0..area.sizes.vars {
        errors.list(state_error(file, m, area, v));
    }
}
