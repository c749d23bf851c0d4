// The parts of an answer that come straight from the file: nodes, and statements' records without fates.
ghost use Rattle.std.specs.Prelude.{◌≡◌, ℕ, length, get_or};
ghost use Rattle.functions.specs.Lists.{each, sum_of};
ghost use Rattle.ast.specs.Tree.{flat_size};
ghost use Rattle.ast.specs.Bytes.{put};
ghost use Rattle.ast.specs.Encode.{flat_nodes, encode};
ghost use Rattle.ast.specs.Views.{file_seen};
ghost use Rattle.definitions.specs.Numbers.{most_bytes};
ghost use Rattle.area.specs.Sections.{nodes_at, nodes_end};
ghost use Rattle.builder.specs.Unfated.{unfated};
ghost use Rattle.builder.specs.Root.{flats_of};
ghost use Rattle.builder.specs.Laying.{Laying};

use crate::flattening::statements::{Written, write_flats};
use crate::source::Calls;
use area::layout::{HEADER_BYTES, MOST_BYTES};
use ast::layout::NODE_BYTES;

// No replacements: N entries in which nothing stands.
// A big array comes from a function of its own: the literal would stand in every goal of a caller.
pub fn no_rows<const N: usize>() -> [u16; N]
    ensures { (length result ≡ N)
        × ((n : ℕ) → get_or result n 0 ≡ 0) }
{
    [0u16; N]
}

// An answer of the builder's own.
// As with the rows, from a function of its own.
pub fn blank() -> [u8; MOST_BYTES]
    ensures { length result ≡ most_bytes }
{
    [0u8; MOST_BYTES]
}

// Writes the nodes, n of them, and the statements' records.
pub fn lay_flats(calls: &Calls, rows: &mut [u16], m: usize, area: &mut [u8], n: usize)
    requires { Laying calls.now.file.bytes.now calls.now.file.sections rows.old m
        × (n ≡ sum_of flat_size (flats_of (file_seen calls.now.file) m))
        × (length area.old ≡ most_bytes) }
    ensures { area.new ≡ put (put area.old nodes_at
        (encode (each flat_nodes (flats_of (file_seen calls.now.file) m)))) (nodes_end n)
        (encode (unfated 0 (flats_of (file_seen calls.now.file) m))) }
{
    // no record yet: the first comes behind all nodes
    let none = Written {
        nodes: 0,
        end: NODE_BYTES * n,
    };
    write_flats(
        calls,
        rows,
        calls.file.sections.counts.models,
        m,
        0,
        &mut area[HEADER_BYTES..],
        none,
    );
}
