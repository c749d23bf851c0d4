// `build`: from a tree file and a root name to an answer area.
ghost use Rattle.std.specs.Prelude.{◌≡◌, ◌*◌, ◌≤◌, ◌<◌, length, IfOk};
ghost use Rattle.ast.specs.Views.{file_seen};
ghost use Rattle.definitions.specs.Numbers.{most_names, most_models, most_bytes};
ghost use Rattle.definitions.specs.Build as definition;
ghost use Rattle.definitions.specs.Build.{answer_of_model, result_area};
ghost use Rattle.builder.specs.Root.{Sources, Stands, answered_as, used_in, bytes_in, fitted_in, said_as, said};

use crate::answer::fill;
use crate::extent::measure::measure;
use crate::flattening::laid::{blank, no_rows};
use crate::models::called::find_root;
use crate::numbers::{FEW_MODELS, FEW_ROWS, ROWS};
use crate::refusal::{Refusal, Refused};
use crate::source::Source;
use area::layout::MOST_BYTES;
use area::lent::{clear, copy};
use ast::open::open;
use ast::view::View;

// The answer of model m, by rows for as many models as there are.
fn answer_with(
    source: &Source,
    rows: &mut [u16],
    m: usize,
    area: &mut [u8],
) -> Result<usize, Refusal>
    requires { Sources source.now.file.bytes.now source.now.file.sections rows.old m area.old }
    ensures { (answered_as result area.new ≡ bytes_in (answer_of_model (file_seen source.now.file) m))
        × (used_in result ≤ most_bytes) }
{
    let extent = measure(source, rows, m)?;
    fill(source, rows, m, area, extent)
}

// The answer of model m, by N entries of rows. Each length of rows is a function of its own for the compiler, so that a
// build of few models does not have the long table on its stack.
#[inline(never)]
fn answer<const N: usize>(file: &View, m: usize, area: &mut [u8]) -> Result<usize, Refusal>
    requires { (m < file.now.sections.counts.models)
        × (length area.old ≡ most_bytes)
        × (most_names * file.now.sections.counts.models ≤ N)
        × (N ≤ most_names * most_models) }
    ensures { (answered_as result area.new ≡ bytes_in (answer_of_model (file_seen file.now) m))
        × (used_in result ≤ most_bytes) }
{
    let source = Source::new(file);
    let mut rows: [u16; N] = no_rows();
    answer_with(&source, &mut rows, m, area)
}

// The same by rows for as many models as there are.
fn answer_in(file: &View, m: usize, area: &mut [u8]) -> Result<usize, Refusal>
    requires { (m < file.now.sections.counts.models)
        × (length area.old ≡ most_bytes) }
    ensures { (answered_as result area.new ≡ bytes_in (answer_of_model (file_seen file.now) m))
        × (used_in result ≤ most_bytes) }
{
    if file.sections.counts.models <= FEW_MODELS {
        return answer::<FEW_ROWS>(file, m, area);
    }
    answer::<ROWS>(file, m, area)
}

// The same in an area too short for some answers: the answer is written apart.
fn answer_apart(file: &View, m: usize, area: &mut [u8]) -> Result<usize, Refused>
    requires { m < file.now.sections.counts.models }
    ensures { Stands
        (fitted_in (length area.old) (bytes_in (answer_of_model (file_seen file.now) m))) result area.new }
{
    let mut own = blank();
    let used = answer_in(file, m, &mut own)?;
    if area.len() < used {
        return Err(Refused::ShortArea);
    }
    copy(&own, used, area);
    Ok(used)
}

// The answer at the front of the area, whatever is behind it.
fn write(file: &[u8], root: &[u8], area: &mut [u8]) -> Result<usize, Refused>
    ensures { Stands (definition.build file.now root.now (length area.old)) result area.new }
{
    let sections = open(file)?;
    let file = View {
        bytes: file,
        sections,
    };
    let m = find_root(&file, root).ok_or(Refusal::NoRoot)?;
    if area.len() < MOST_BYTES {
        return answer_apart(&file, m, area);
    }
    let used = answer_in(&file, m, &mut area[..MOST_BYTES])?;
    Ok(used)
}

// The bytes used, with zeros behind them; or why there is no answer, and zeros only.
pub fn build(file: &[u8], root: &[u8], area: &mut [u8]) -> Result<usize, Refused>
    ensures { (said_as result ≡ said (definition.build file.now root.now (length area.old)))
        × (IfOk result (λ n. n ≤ most_bytes))
        × (area.new ≡ result_area (length area.old)
        (definition.build file.now root.now (length area.old))) }
{
    let answer = write(file, root, area);
    clear(area, answer.unwrap_or(0));
    answer
}
