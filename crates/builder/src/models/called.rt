// The root, and the model that each submodel statement calls.
ghost use Rattle.std.specs.Prelude.{◌≡◌, ◌<◌};
ghost use Rattle.ast.specs.Views.{file_seen};
ghost use Rattle.definitions.specs.Flatten.{model_named};
ghost use Rattle.definitions.specs.Build.{root_of};
ghost use Rattle.builder.specs.Tables.{callee_of, Callees};
ghost use Rattle.builder.specs.Checking.{stmt_in};
ghost use Rattle.builder.specs.Starting.{place_as};

use ast::kinds::StmtKind;
use ast::layout::{MODEL_NAME, MOST_STMTS, NODE_NAME, STMT_RIGHT};
use ast::view::View;
use functions::same_bytes;

// The number of the first model that bears the root name.
pub fn find_root(file: &View, root: &[u8]) -> Option<usize>
    ensures { place_as result ≡ root_of (file_seen file.now) root.now }
{
    (0..file.sections.counts.models).position(|m| {
        let name = file.model(m, MODEL_NAME);
        same_bytes(root, file.text(name))
    })
}

// The number of the first model that bears a name.
fn find_model(file: &View, name: usize) -> Option<usize>
    ensures { place_as result ≡ model_named (file_seen file.now) name }
{
    (0..file.sections.counts.models).position(|m| name == file.model(m, MODEL_NAME))
}

// The number, plus 1, of the model that statement q calls, or 0.
// An entry as `Source` has it, whose table alone asks for one.
fn callee(file: &View, q: usize) -> u8
    requires { q < file.now.sections.counts.stmts }
    ensures { result ≡ callee_of (file_seen file.now) (stmt_in file.now.bytes.now file.now.sections q) }
{
    if !file.is_stmt(q, StmtKind::Submodel) {
        return 0;
    }
    let call = file.stmt(q, STMT_RIGHT);
    find_model(file, file.node(call, NODE_NAME)).map_or(0, |m| m as u8 + 1)
}

// The same of each statement.
// By number: a statement's record is asked for by it.
pub fn callees(file: &View) -> [u8; MOST_STMTS]
    ensures { Callees file.now.bytes.now file.now.sections result }
{
    let mut out = [0u8; MOST_STMTS];
    for q in 0..file.sections.counts.stmts {
        out[q] = callee(file, q);
    }
    out
}
