// What each flattened statement asks for, read back from the answer's area.
ghost use Rattle.std.specs.Prelude.{◌≡◌, All, map, ℕ, suc, ◌-◌, ◌≤◌, ◌<◌, length, get_or, eqb};
ghost use Rattle.functions.specs.Lists.{any, unless, each};
ghost use Rattle.ast.specs.Words.{word_of, span_from};
ghost use Rattle.std.specs.Float.Ieee.{eq};
ghost use Rattle.ast.specs.Numbers.{number_of};
ghost use Rattle.ast.specs.Nodes.{name_at, op_at, span_at, bits_at};
ghost use Rattle.area.specs.Fields.{stmt_name, stmt_span};
ghost use Rattle.area.specs.Sections.{Small, nodes_end, vars_at, deps_at};
ghost use Rattle.area.specs.Views.{nodes_seen, stmt_seen};
ghost use Rattle.definitions.specs.Numbers.{most_names, wrong_start};
ghost use Rattle.definitions.specs.Variables.{error};
ghost use Rattle.area.specs.Listing.{kind_number, error_as, found_as};
ghost use Rattle.area.specs.LentList.{Listed, RoomFor};
ghost use Rattle.builder.specs.Allocating.{arg_node, start_at, short_by, role_as, Narrow, start_role_by, found_start, StartFits, role_by, ArgIn, NumberIn, StartIn, entry_by, start_errors_by, rate_errors_by, role_errors_by};
ghost use Rattle.builder.specs.Areas.{flat_seen, flats_seen, FlattenedSeen, NumberedSeen, indexes_seen, rates_seen};

use area::errors::{ErrorKind, Errors, Found};
use area::layout::{VAR_STATE, VAR_TIME_INDEX, VAR_TIMED};
use area::records::Area;
use arrayvec::ArrayVec;
use ast::kinds::{NodeKind, StmtKind};
use ast::layout::{
    MOST_STMTS, NODE_BITS, NODE_FROM, NODE_NAME, NODE_OP, NODE_SIZE, NODE_TO, STMT_FROM, STMT_LEFT,
    STMT_NAME, STMT_TO,
};
use ast::numbers::same_number;

// A statement's role: neither, an initial condition of a variable, or a rate equation that goes to one. Neither is also
// what a vector of roles has in the places behind its end.
// It has a case for neither, since with an Option around it each match would be two deep.
#[derive(Clone, Copy, Default, PartialEq, Eq)]
pub enum Role {
    #[default]
    Neither,
    Initial(u32),
    Rate(u32),
}

// A left side that is a call by a variable's name: too short to reach the time index, or with a number there: the
// variable, and the node of the argument.
#[derive(Clone, Copy)]
pub enum Start {
    Short,
    Number(u16, usize),
}

// The node of argument number i of a call.
fn arg_at(area: &Area, call: usize, i: usize) -> usize
    requires { ArgIn area.now.bytes.now area.now.sizes call i }
    ensures { result ≡ arg_node (nodes_seen area.now) i call
        (op_at (nodes_seen area.now) call) }
{
    let mut end = call;
    let left = area.node(call, NODE_OP);
    for _ in i + 1..left {
        end -= area.node(end - 1, NODE_SIZE);
    }
    end - 1
}

// What the expression at node i is as a left side.
// Area, numbers and the first variable go by themselves here: not every test of a role asks for all three.
fn start_of(area: &Area, numbers: &[u16], i: usize) -> Option<Start>
    requires { FlattenedSeen area.now
        × NumberedSeen area.now numbers.now
        × (i < area.now.sizes.nodes) }
    ensures { result ≡ start_at (nodes_seen area.now) numbers.now
        (indexes_seen area.now) i }
{
    if !area.is_node(i, NodeKind::Call) {
        return None;
    }
    let v = numbers[area.node(i, NODE_NAME)].checked_sub(1)?;
    let index = area.var(usize::from(v), VAR_TIME_INDEX).checked_sub(1)? as usize;
    if area.node(i, NODE_OP) <= index {
        return Some(Start::Short);
    }
    let arg = arg_at(area, i, index);
    if area.is_node(arg - 1, NodeKind::Number) {
        return Some(Start::Number(v, arg));
    }
    None
}

// Refusal 10, of statement i.
fn is_short(area: &Area, numbers: &[u16], i: usize) -> bool
    requires { FlattenedSeen area.now
        × NumberedSeen area.now numbers.now
        × (i < area.now.sizes.stmts) }
    ensures { result ≡ short_by numbers.now (indexes_seen area.now)
        (flat_seen area.now i) }
{
    if !area.is_stmt(i, StmtKind::Equation) {
        return false;
    }
    match start_of(area, numbers, area.stmt(i, STMT_LEFT)) {
        Some(Start::Short) => true,
        Some(Start::Number(_, _)) => false,
        None => false,
    }
}

// Refusal 10.
pub fn any_short(area: &Area, numbers: &[u16]) -> bool
    requires { FlattenedSeen area.now
        × NumberedSeen area.now numbers.now }
    ensures { result ≡ any (short_by numbers.now (indexes_seen area.now))
        (flats_seen area.now) }
{
    (0..area.sizes.stmts).any(|i| is_short(area, numbers, i))
}

// The role of an equation by its left side.
// An arm for each case, though two do the same: tried as one arm for both, with which the proof did not close, as it
// has no name there for each of the two. So also in `start_error` and `is_short`.
fn start_role(area: &Area, start: Option<Start>, lower: f64) -> Role
    requires { (nodes_end area.now.sizes.nodes ≤ length area.now.bytes.now)
        × Small area.now.sizes
        × StartFits area.now.sizes start }
    ensures { ((f : ℕ)
        → role_as result ≡ start_role_by lower (found_start (nodes_seen area.now) f start))
        × Narrow result }
{
    match start {
        Some(Start::Number(v, arg)) => {
            let bits = area.node_bits(arg - 1, NODE_BITS);
            if same_number(bits, lower) {
                Role::Initial(u32::from(v))
            } else {
                Role::Neither
            }
        }
        Some(Start::Short) => Role::Neither,
        None => Role::Neither,
    }
}

// Whether a rate equation may go to variable v: a time-dependent state.
fn takes_rate(area: &Area, v: usize) -> bool
    requires { Small area.now.sizes
        × (deps_at area.now.sizes ≤ length area.now.bytes.now)
        × (v < area.now.sizes.vars) }
    ensures { result ≡ eqb (get_or (rates_seen area.now) v 0) 1 }
{
    (area.var(v, VAR_STATE) == 1) & (area.var(v, VAR_TIMED) == 1)
}

// The role of statement i.
fn allocate_stmt(area: &Area, numbers: &[u16], lower: f64, i: usize) -> Role
    requires { FlattenedSeen area.now
        × NumberedSeen area.now numbers.now
        × (i < area.now.sizes.stmts) }
    ensures { (role_as result ≡ role_by numbers.now (indexes_seen area.now)
        (rates_seen area.now) lower (flat_seen area.now i))
        × Narrow result }
{
    if area.is_stmt(i, StmtKind::Equation) {
        let start = start_of(area, numbers, area.stmt(i, STMT_LEFT));
        return start_role(area, start, lower);
    }
    match numbers[area.stmt(i, STMT_NAME)].checked_sub(1) {
        Some(v) if takes_rate(area, usize::from(v)) => Role::Rate(u32::from(v)),
        _ => Role::Neither,
    }
}

// The roles of all statements.
pub fn roles(area: &Area, numbers: &[u16], lower: f64) -> ArrayVec<Role, MOST_STMTS>
    requires { FlattenedSeen area.now
        × NumberedSeen area.now numbers.now }
    ensures { (map role_as result.items ≡ map (role_by numbers.now (indexes_seen area.now)
        (rates_seen area.now) lower) (flats_seen area.now))
        × All Narrow result.items }
{
    let mut out = ArrayVec::new();
    for i in 0..area.sizes.stmts {
        out.push(allocate_stmt(area, numbers, lower, i));
    }
    out
}

// What is found wrong with statement i.
fn stmt_error(area: &Area, i: usize, kind: ErrorKind, name: u32) -> Found
    requires { Small area.now.sizes
        × (vars_at area.now.sizes ≤ length area.now.bytes.now)
        × (i < area.now.sizes.stmts) }
    ensures { error_as result ≡ error (kind_number kind) (span_from (stmt_seen area.now i) stmt_span) name }
{
    let from = area.stmt_word(i, STMT_FROM);
    let to = area.stmt_word(i, STMT_TO);
    Found {
        kind,
        from,
        to,
        name,
    }
}

// Error 12: the number of argument node `arg`, in time's place of a call, is another than time's lower bound.
fn number_error(area: &Area, arg: usize, lower: f64, call: usize) -> Option<Found>
    requires { NumberIn area.now.bytes.now area.now.sizes arg call }
    ensures { found_as result ≡ unless (eq (number_of (bits_at (nodes_seen area.now) (arg - 1))) lower)
        (error wrong_start (span_at (nodes_seen area.now) arg)
        (suc (name_at (nodes_seen area.now) call))) }
{
    if same_number(area.node_bits(arg - 1, NODE_BITS), lower) {
        return None;
    }
    let from = area.node_word(arg, NODE_FROM);
    let to = area.node_word(arg, NODE_TO);
    let name = area.node_word(call, NODE_NAME);
    Some(Found {
        kind: ErrorKind::WrongStart,
        from,
        to,
        name: 1 + name,
    })
}

// What is found wrong with an equation by its left side at node `call`.
fn start_error(area: &Area, start: Option<Start>, lower: f64, call: usize) -> Option<Found>
    requires { StartIn area.now.bytes.now area.now.sizes call start }
    ensures { found_as result ≡ start_errors_by lower (found_start (nodes_seen area.now)
        (name_at (nodes_seen area.now) call) start) }
{
    match start {
        Some(Start::Number(_, arg)) => number_error(area, arg, lower, call),
        Some(Start::Short) => None,
        None => None,
    }
}

// What is found wrong with rate equation i: 5 where its name is no variable's, 13 where it may not go to the variable.
fn rate_error(area: &Area, numbers: &[u16], i: usize) -> Option<Found>
    requires { Small area.now.sizes
        × (i < area.now.sizes.stmts)
        × (word_of (stmt_seen area.now i) stmt_name < most_names)
        × NumberedSeen area.now numbers.now }
    ensures { found_as result ≡ rate_errors_by (rates_seen area.now)
        (word_of (stmt_seen area.now i) stmt_name) (span_from (stmt_seen area.now i) stmt_span)
        (entry_by numbers.now (word_of (stmt_seen area.now i) stmt_name)) }
{
    let name = area.stmt_word(i, STMT_NAME);
    match numbers[name as usize].checked_sub(1) {
        None => Some(stmt_error(area, i, ErrorKind::NameNotFound, 1 + name)),
        Some(v) if takes_rate(area, usize::from(v)) => None,
        Some(_) => Some(stmt_error(area, i, ErrorKind::RateInvalid, 1 + name)),
    }
}

// Which of the errors 12, 5 and 13 is found of statement i.
// By kind as `allocate_stmt` goes: a role has no span and no name, which an error needs.
fn role_error(area: &Area, numbers: &[u16], lower: f64, i: usize) -> Option<Found>
    requires { FlattenedSeen area.now
        × NumberedSeen area.now numbers.now
        × (i < area.now.sizes.stmts) }
    ensures { found_as result ≡ role_errors_by numbers.now (indexes_seen area.now)
        (rates_seen area.now) lower (flat_seen area.now i) }
{
    if area.is_stmt(i, StmtKind::Equation) {
        let left = area.stmt(i, STMT_LEFT);
        let start = start_of(area, numbers, left);
        return start_error(area, start, lower, left);
    }
    rate_error(area, numbers, i)
}

// The errors 12, 5 and 13 of all statements.
pub fn roles_errors(area: &Area, numbers: &[u16], lower: f64, errors: &mut Errors)
    requires { FlattenedSeen area.now
        × NumberedSeen area.now numbers.now
        × RoomFor errors.old (each (role_errors_by numbers.now (indexes_seen area.now) (rates_seen area.now) lower)
        (flats_seen area.now)) }
    ensures { Listed errors.old (each
        (role_errors_by numbers.now (indexes_seen area.now) (rates_seen area.now) lower)
        (flats_seen area.now)) errors.new }
{
    for i in 0..area.sizes.stmts {
        errors.list(role_error(area, numbers, lower, i));
    }
}
