// Whether a root model can be built, and how big its answer is: refusals 6 to 9.
ghost use Rattle.std.specs.Prelude.{◌≡◌, ◌<◌};
ghost use Rattle.ast.specs.Views.{file_seen};
ghost use Rattle.builder.specs.Descent.{RowsAt};
ghost use Rattle.builder.specs.Root.{forbidden_of, forbidden_as, size_of, measure_of, measured_as};

use crate::extent::counts::{FlatExtent, flat_extent, instances};
use crate::models::reached::{cyclic, overfull, reach, self_listed};
use crate::refusal::Refusal;
use crate::source::Source;
use area::layout::MOST_INSTANCES;
use ast::layout::{MOST_NODES, MOST_STMTS};

// How big an answer is: its instances, flattened statements and nodes.
// No `FlatExtent` in it, which counts beyond the mosts: here all are within them.
#[derive(Clone, Copy, Debug, PartialEq, Eq)]
pub struct Extent {
    pub instances: usize,
    pub stmts: usize,
    pub nodes: usize,
}

// Refusals 6, 7 and 8.
fn forbidden(source: &Source, m: usize) -> Result<(), Refusal>
    requires { m < source.now.file.sections.counts.models }
    ensures { forbidden_as result ≡ forbidden_of (file_seen source.now.file) m }
{
    let calls = source.calls();
    let table = reach(&calls);
    if cyclic(&source.file, &table, m) {
        return Err(Refusal::ModelCycle);
    }
    if self_listed(&source.names(), &table, m) {
        return Err(Refusal::SelfListedUnknown);
    }
    if overfull(&calls, &table, m) {
        return Err(Refusal::ArgumentBeyond);
    }
    Ok(())
}

// Refusal 9, or the sizes.
fn size(source: &Source, rows: &mut [u16], m: usize) -> Result<Extent, Refusal>
    requires { (m < source.now.file.sections.counts.models)
        × RowsAt source.now.file.bytes.now source.now.file.sections rows.old source.now.file.sections.counts.models }
    ensures { (measured_as result ≡ size_of (file_seen source.now.file) m)
        × RowsAt source.now.file.bytes.now source.now.file.sections rows.new source.now.file.sections.counts.models }
{
    let k = source.file.sections.counts.models;
    let calls = source.calls();
    let i = instances(&calls, k, m, MOST_INSTANCES + 1);
    if MOST_INSTANCES < i {
        return Err(Refusal::OverMost);
    }
    let none = FlatExtent { stmts: 0, nodes: 0 };
    let flat = flat_extent(&calls, rows, k, m, 0, none);
    if (MOST_STMTS < flat.stmts) | (MOST_NODES < flat.nodes) {
        return Err(Refusal::OverMost);
    }
    Ok(Extent {
        instances: i,
        stmts: flat.stmts,
        nodes: flat.nodes,
    })
}

// Refusals 6 to 9, or the sizes.
pub fn measure(source: &Source, rows: &mut [u16], m: usize) -> Result<Extent, Refusal>
    requires { (m < source.now.file.sections.counts.models)
        × RowsAt source.now.file.bytes.now source.now.file.sections rows.old source.now.file.sections.counts.models }
    ensures { (measured_as result ≡ measure_of (file_seen source.now.file) m)
        × RowsAt source.now.file.bytes.now source.now.file.sections rows.new source.now.file.sections.counts.models }
{
    forbidden(source, m)?;
    size(source, rows, m)
}
