// The records of an answer area by number.
#![tactic(auto, unfolding(crate::specs::Sections::stmts_at, crate::specs::Sections::vars_at, crate::specs::Sections::deps_at))]

ghost use Rattle.std.specs.Prelude.{◌≤◌, ◌<◌, length};
ghost use Rattle.definitions.specs.Numbers.{variable_length};
ghost use Rattle.area.specs.Sections.{Small, deps_at, area_vars, with_word, VarsAre};

use super::layout::{Fate, HEADER_BYTES, STMT_FATE, STMT_WORDS, VAR_BYTES, VAR_WORDS, WORD_BYTES};
use super::sections::{Sizes, stmts_at, vars_at};
use ast::kinds::{NodeKind, StmtKind};
use ast::layout::{NODE_KIND, NODE_WORDS, STMT_KIND};
use ast::numbers::record_bits;
use ast::sections::record_word;
use ast::words::put_word;

// An answer's area as it is read: its bytes, and how many records each section has.
// It has no fact of its own: who reads nodes asks less than who reads statements, and these less than who reads
// variables, so a fact of the type would ask more of some.
#[derive(Clone, Copy)]
pub struct Area<'a> {
    pub bytes: &'a [u8],
    pub sizes: Sizes,
}

impl Area<'_> {
    ghost use Rattle.std.specs.Prelude.{◌≡◌, ◌+◌, ◌^◌, eqb, get_or};
    ghost use Rattle.ast.specs.Words.{word_of, float_from};
    ghost use Rattle.ast.specs.Nodes.{node_at, kind_at};
    ghost use Rattle.ast.specs.Kinds.{node_number, stmt_number};
    ghost use Rattle.area.specs.Fields.{stmt_kind, stmt_fate};
    ghost use Rattle.area.specs.Fates.{fate_number};
    ghost use Rattle.definitions.specs.Numbers.{node_length, stmt_length};
    ghost use Rattle.area.specs.Sections.{nodes_end, vars_at, column};
    ghost use Rattle.area.specs.Views.{nodes_seen, stmt_seen, vars_seen};

    // Word k of node i: as it stands, and as an index.
    pub fn node_word(&self, i: usize, k: usize) -> u32
        requires { (nodes_end self.now.sizes.nodes ≤ length self.now.bytes.now)
            × (i < self.now.sizes.nodes)
            × (k < node_length) }
        ensures { result ≡ word_of (node_at (nodes_seen self.now) i) k }
    {
        record_word(self.bytes, HEADER_BYTES, NODE_WORDS, self.sizes.nodes, i, k)
    }

    pub fn node(&self, i: usize, k: usize) -> usize
        requires { (nodes_end self.now.sizes.nodes ≤ length self.now.bytes.now)
            × (i < self.now.sizes.nodes)
            × (k < node_length) }
        ensures { (result ≡ word_of (node_at (nodes_seen self.now) i) k)
            × (result < 2 ^ 32) }
    {
        self.node_word(i, k) as usize
    }

    // Whether node i is of a kind.
    // By the kind's number, as `NodeView::is`, and not by that method: a view would have to be made at each call.
    pub fn is_node(&self, i: usize, kind: NodeKind) -> bool
        requires { (nodes_end self.now.sizes.nodes ≤ length self.now.bytes.now)
            × (i < self.now.sizes.nodes) }
        ensures { result ≡ eqb (kind_at (nodes_seen self.now) i) (node_number kind) }
    {
        self.node(i, NODE_KIND) == kind as usize
    }

    // The 64 bits at word k of node i.
    pub fn node_bits(&self, i: usize, k: usize) -> u64
        requires { (nodes_end self.now.sizes.nodes ≤ length self.now.bytes.now)
            × (i < self.now.sizes.nodes)
            × (k + 1 < node_length) }
        ensures { result ≡ float_from (node_at (nodes_seen self.now) i) k }
    {
        record_bits(self.bytes, HEADER_BYTES, NODE_WORDS, self.sizes.nodes, i, k)
    }

    // Word k of statement i: as it stands, to go on into a record; and (`stmt`) as an index or to be compared.
    pub fn stmt_word(&self, i: usize, k: usize) -> u32
        requires { Small self.now.sizes
            × (vars_at self.now.sizes ≤ length self.now.bytes.now)
            × (i < self.now.sizes.stmts)
            × (k < stmt_length) }
        ensures { result ≡ word_of (stmt_seen self.now i) k }
    {
        let z = self.sizes;
        record_word(self.bytes, stmts_at(z), STMT_WORDS, z.stmts, i, k)
    }

    pub fn stmt(&self, i: usize, k: usize) -> usize
        requires { Small self.now.sizes
            × (vars_at self.now.sizes ≤ length self.now.bytes.now)
            × (i < self.now.sizes.stmts)
            × (k < stmt_length) }
        ensures { (result ≡ word_of (stmt_seen self.now i) k)
            × (result < 2 ^ 32) }
    {
        self.stmt_word(i, k) as usize
    }

    // Whether statement i is of a kind.
    // By the kind's number, as `is_node`.
    pub fn is_stmt(&self, i: usize, kind: StmtKind) -> bool
        requires { Small self.now.sizes
            × (vars_at self.now.sizes ≤ length self.now.bytes.now)
            × (i < self.now.sizes.stmts) }
        ensures { result ≡ eqb (word_of (stmt_seen self.now i) stmt_kind) (stmt_number kind) }
    {
        self.stmt(i, STMT_KIND) == kind as usize
    }

    // Whether statement i is of a fate.
    pub fn is_fated(&self, i: usize, fate: Fate) -> bool
        requires { Small self.now.sizes
            × (vars_at self.now.sizes ≤ length self.now.bytes.now)
            × (i < self.now.sizes.stmts) }
        ensures { result ≡ eqb (word_of (stmt_seen self.now i) stmt_fate) (fate_number fate) }
    {
        self.stmt(i, STMT_FATE) == fate as usize
    }

    // Word k of variable v.
    // A flag among these words is 0 or 1, as C reads it.
    pub fn var(&self, v: usize, k: usize) -> u32
        requires { Small self.now.sizes
            × (deps_at self.now.sizes ≤ length self.now.bytes.now)
            × (v < self.now.sizes.vars)
            × (k < variable_length) }
        ensures { result ≡ get_or (column k (vars_seen self.now)) v 0 }
    {
        let z = self.sizes;
        record_word(self.bytes, vars_at(z), VAR_WORDS, z.vars, v, k)
    }
}

// Writes word k of variable v. Who writes has the bytes and the sizes apart: the sizes grow while variables are
// listed, and a contract equates the bytes before and after, which a struct that holds them lent would hide.
pub fn put_var(area: &mut [u8], z: Sizes, v: usize, k: usize, word: u32)
    requires { Small z
        × (deps_at z ≤ length area.old)
        × (v < z.vars)
        × (k < variable_length) }
    ensures { VarsAre z area.old (with_word (area_vars area.old z) v k word)
        area.new }
{
    put_word(area, vars_at(z) + VAR_BYTES * v + WORD_BYTES * k, word);
}
