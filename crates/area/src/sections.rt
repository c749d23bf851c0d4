// The sections of an answer area: how many records each has, and the byte at which each begins behind the header and
// the nodes.
#![tactic(auto, unfolding(crate::specs::Sections::stmts_at, crate::specs::Sections::vars_at, crate::specs::Sections::deps_at, crate::specs::Sections::errors_at))]

ghost use Rattle.std.specs.Prelude.{◌≡◌, ◌≤◌};
ghost use Rattle.definitions.specs.Numbers.{most_nodes};
ghost use Rattle.area.specs.Sections.{Small, nodes_end, stmts_at, vars_at, deps_at, errors_at};

use super::layout::{HEADER_BYTES, STMT_BYTES, VAR_BYTES};
use ast::layout::{DEP_BYTES, NODE_BYTES};

// That no count is over its most stays a clause (`Small`) where it is asked for: as a fact of the type it would be
// asked of those who only read nodes, too.
#[derive(Clone, Copy)]
pub struct Sizes {
    pub nodes: usize,
    pub stmts: usize,
    pub vars: usize,
    pub deps: usize,
}

// Behind n nodes.
// `keeping` reckons these places once more (`sections_in`), since its definition takes the lengths from a layout.
pub fn nodes_end(n: usize) -> usize
    requires { n ≤ most_nodes }
    ensures { result ≡ nodes_end n }
{
    HEADER_BYTES + NODE_BYTES * n
}

// Each adds the length of the section before it. One function over a section's number would have each caller say which
// one it means, and its contract unfolded there.
pub fn stmts_at(z: Sizes) -> usize
    requires { Small z }
    ensures { result ≡ stmts_at z }
{
    nodes_end(z.nodes)
}

pub fn vars_at(z: Sizes) -> usize
    requires { Small z }
    ensures { result ≡ vars_at z }
{
    stmts_at(z) + STMT_BYTES * z.stmts
}

pub fn deps_at(z: Sizes) -> usize
    requires { Small z }
    ensures { result ≡ deps_at z }
{
    vars_at(z) + VAR_BYTES * z.vars
}

pub fn errors_at(z: Sizes) -> usize
    requires { Small z }
    ensures { result ≡ errors_at z }
{
    deps_at(z) + DEP_BYTES * z.deps
}
