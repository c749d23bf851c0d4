// What an area's header counts, and where its sections lie: header, nodes, statements, variables, dependents, listed
// errors, one behind the other.
ghost use Rattle.std.specs.Prelude.{◌≡◌, ◌*◌, ◌^◌, ◌≤◌, ◌<◌, length};
ghost use Rattle.ast.specs.Words.{word_of};
ghost use Rattle.definitions.specs.Numbers.{header_length};
ghost use Rattle.definitions.specs.Area.{header_in, listed_in};
ghost use Rattle.definitions.specs.Layout.{plain, counts_fit};
ghost use Rattle.keeping.specs.Placed.{placed, sections_of, Counted};

use area::layout::{
    DEP_WORDS, ERROR_BYTES, ERROR_WORDS, HEADER_BYTES, HEADER_DEPS, HEADER_ERRORS,
    HEADER_INSTANCES, HEADER_NODES, HEADER_STMTS, HEADER_VARS, HEADER_WORDS, MOST_INSTANCES,
    MOST_LISTED, MOST_VARS, STMT_BYTES, STMT_WORDS, VAR_BYTES, VAR_WORDS,
};
use ast::layout::{DEP_BYTES, MOST_DEPS, MOST_NODES, MOST_STMTS, NODE_BYTES};
use ast::sections::{Nodes, Records, record_word};

// Each section by place, and the byte behind the last.
#[derive(Clone, Copy)]
pub struct Sections {
    pub nodes: Nodes,
    pub stmts: Records,
    pub vars: Records,
    pub deps: Records,
    pub errors: Records,
    pub end: usize,
}

// Word k of the header.
// That there is a header stays a clause: `keeps_layout` tests it once, before any of these is called.
fn header_word(area: &[u8], k: usize) -> usize
    requires { (4 * header_length ≤ length area.now)
        × (k < header_length) }
    ensures { (result ≡ word_of (header_in area.now) k)
        × (result < 2 ^ 32) }
{
    record_word(area, 0, HEADER_WORDS, 1, 0, k) as usize
}

// Whether the counts are within the mosts. All errors are counted, so that their count has none.
pub fn counts_fit(area: &[u8]) -> bool
    requires { 4 * header_length ≤ length area.now }
    ensures { result ≡ counts_fit (header_in area.now) }
{
    (header_word(area, HEADER_NODES) <= MOST_NODES)
        & (header_word(area, HEADER_STMTS) <= MOST_STMTS)
        & (header_word(area, HEADER_VARS) <= MOST_VARS)
        & (header_word(area, HEADER_DEPS) <= MOST_DEPS)
        & (header_word(area, HEADER_INSTANCES) <= MOST_INSTANCES)
}

// How many errors are listed: the library's `min`, in the definitions' words.
fn listed(area: &[u8]) -> usize
    requires { 4 * header_length ≤ length area.now }
    ensures { result ≡ listed_in (header_in area.now) }
{
    header_word(area, HEADER_ERRORS).min(MOST_LISTED)
}

// So many records of a width in words, from a byte on.
// A function for its contract, of which that of the sections is made.
fn by_place(at: usize, width: usize, count: usize) -> Records
    ensures { result ≡ placed at width count }
{
    Records { at, width, count }
}

pub fn sections_in(area: &[u8]) -> Sections
    requires { (4 * header_length ≤ length area.now)
        × Counted (header_in area.now) }
    ensures { result ≡ sections_of plain (header_in area.now) }
{
    let nodes = header_word(area, HEADER_NODES);
    let stmts = header_word(area, HEADER_STMTS);
    let vars = header_word(area, HEADER_VARS);
    let deps = header_word(area, HEADER_DEPS);
    let errors = listed(area);
    let stmts_at = HEADER_BYTES + NODE_BYTES * nodes;
    let vars_at = stmts_at + STMT_BYTES * stmts;
    let deps_at = vars_at + VAR_BYTES * vars;
    let errors_at = deps_at + DEP_BYTES * deps;
    Sections {
        nodes: Nodes {
            at: HEADER_BYTES,
            count: nodes,
        },
        stmts: by_place(stmts_at, STMT_WORDS, stmts),
        vars: by_place(vars_at, VAR_WORDS, vars),
        deps: by_place(deps_at, DEP_WORDS, deps),
        errors: by_place(errors_at, ERROR_WORDS, errors),
        end: errors_at + ERROR_BYTES * errors,
    }
}
