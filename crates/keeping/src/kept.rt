// Whether an area keeps its layout.
ghost use Rattle.std.specs.Prelude.{◌≡◌};
ghost use Rattle.definitions.specs.Area.{header_in};
ghost use Rattle.definitions.specs.Layout.{plain, records_at, records_fit, keeps_layout};
ghost use Rattle.keeping.specs.Placed.{sections_of, Laid};

use super::errors::errors_fit;
use super::sections::{Sections, counts_fit, sections_in};
use super::stmts::rows_fit;
use super::variables::{names_differ, variables_fit};
use super::zeros::all_zeros;
use area::layout::HEADER_BYTES;
use ast::layout::MOST_NAMES;
use ast::nodes::nodes_fit;
use ast::places::{NodeView, RecordView};
use ast::unknowns::deps_fit;

fn records_fit(area: &[u8], s: Sections, kinds: usize) -> bool
    requires { Laid (header_in area.now) area.now
        × (s ≡ sections_of plain (header_in area.now)) }
    ensures { result ≡ records_fit kinds (records_at plain (header_in area.now) area.now) }
{
    let nodes = NodeView {
        bytes: area,
        nodes: s.nodes,
    };
    let stmts = RecordView {
        bytes: area,
        records: s.stmts,
    };
    let vars = RecordView {
        bytes: area,
        records: s.vars,
    };
    let errors = RecordView {
        bytes: area,
        records: s.errors,
    };
    nodes_fit(&nodes, MOST_NAMES)
        & rows_fit(&nodes, &stmts, s.vars.count)
        & variables_fit(&vars, s.stmts.count, s.deps.count)
        & names_differ(&vars)
        & deps_fit(area, s.deps.at, s.deps.count, s.vars.count)
        & errors_fit(&errors, kinds)
}

// Whether the area keeps the layout of document 01, with errors of the kinds 1 to `kinds`.
pub fn keeps_layout(area: &[u8], kinds: usize) -> bool
    ensures { result ≡ keeps_layout plain kinds area.now }
{
    if area.len() < HEADER_BYTES {
        return false;
    }
    if !counts_fit(area) {
        return false;
    }
    let s = sections_in(area);
    let end = s.end;
    if area.len() < end {
        return false;
    }
    all_zeros(&area[end..]) & records_fit(area, s, kinds)
}
