// The replacements of a submodel statement: what each argument replaces in its model, as a row over the names.
ghost use Rattle.std.specs.Prelude.{◌≡◌, cond, ℕ, ◌+◌, ◌-◌, ◌*◌, ◌≤◌, ◌<◌, eqb, length, take, drop, get_or, set, IfSome};
ghost use Rattle.functions.specs.Lists.{plus_one};
ghost use Rattle.ast.specs.Subst.{Replacements};
ghost use Rattle.ast.specs.Nodes.{name_at, tree_at};
ghost use Rattle.ast.specs.Levels.{by_table};
ghost use Rattle.ast.specs.Views.{contents_seen, file_seen};
ghost use Rattle.definitions.specs.Numbers.{most_names};
ghost use Rattle.definitions.specs.Flatten.{replaced_name, model_at};
ghost use Rattle.builder.specs.Descent.{replaced_by, RowsAt, RowIn, RowsKept, ArgumentBefore, ModelCall};
ghost use Rattle.builder.specs.Overlay.{over, replacing};
ghost use Rattle.builder.specs.Starting.{place_as};

use ast::layout::{
    MODEL_FIRST_UNKNOWN, MODEL_UNKNOWNS, MOST_NAMES, NODE_NAME, NODE_OP, NODE_SIZE, UNKNOWN_NAME,
};
use ast::view::View;

// The name that argument number i with a keyword (plus 1, or 0) replaces: its keyword, or unknown i of its model.
fn target(file: &View, m: usize, i: usize, keyword: usize) -> Option<usize>
    requires { (m < file.now.sections.counts.models) × (keyword ≤ file.now.sections.counts.names) }
    ensures { (plus_one (place_as result) ≡ replaced_name (model_at (file_seen file.now) m).unknowns i keyword)
        × IfSome result (λ n. n < file.now.sections.counts.names) }
{
    if let Some(name) = keyword.checked_sub(1) {
        return Some(name);
    }
    if i < file.model(m, MODEL_UNKNOWNS) {
        return Some(file.unknown(file.model(m, MODEL_FIRST_UNKNOWN) + i, UNKNOWN_NAME));
    }
    None
}

// Sets an entry that is still 0.
fn set_free(row: &mut [u16], j: usize, value: u16)
    requires { j < length row.old }
    ensures { row.new ≡ cond (eqb (get_or row.old j 0) 0) (set row.old j value)
        row.old }
{
    if row[j] == 0 {
        row[j] = value;
    }
}

// Notes what argument number i, node end - 1, replaces in model m, unless a later one replaces the same.
fn note_argument(file: &View, m: usize, i: usize, end: usize, row: &mut [u16])
    requires { (m < file.now.sections.counts.models)
        × ArgumentBefore file.now.bytes.now file.now.sections end
        × RowIn file.now.bytes.now file.now.sections row.old }
    ensures { RowIn file.now.bytes.now file.now.sections row.new
        × ((by : Replacements) (n : ℕ) → over (contents_seen file.now).nodes row.new by n
        ≡ over (contents_seen file.now).nodes row.old
        (replacing (replaced_name (model_at (file_seen file.now) m).unknowns i
        (name_at (contents_seen file.now).nodes (end - 1)))
        (tree_at (contents_seen file.now).nodes (end - 1 - 1)) by) n) }
{
    if let Some(name) = target(file, m, i, file.node(end - 1, NODE_NAME)) {
        set_free(row, name, (end - 1) as u16);
    }
}

// Notes what the arguments of a call replace in model m, the last argument first: the later wins.
fn fill_row(file: &View, m: usize, call: usize, row: &mut [u16])
    requires { ModelCall file.now.bytes.now file.now.sections m call
        × (length row.old ≡ most_names)
        × ((n : ℕ) → get_or row.old n 0 ≡ 0) }
    ensures { RowIn file.now.bytes.now file.now.sections row.new
        × ((n : ℕ) → by_table (contents_seen file.now).nodes row.new n
        ≡ replaced_by file.now.bytes.now file.now.sections m call n) }
{
    let mut end = call;
    let count = file.node(call, NODE_OP);
    for i in (0..count).rev() {
        note_argument(file, m, i, end, row);
        end -= file.node(end - 1, NODE_SIZE);
    }
}

// The replacements of a call as a row, whatever it held of the names.
fn new_row(file: &View, m: usize, call: usize, row: &mut [u16])
    requires { ModelCall file.now.bytes.now file.now.sections m call
        × RowIn file.now.bytes.now file.now.sections row.old }
    ensures { RowIn file.now.bytes.now file.now.sections row.new
        × ((n : ℕ) → by_table (contents_seen file.now).nodes row.new n
        ≡ replaced_by file.now.bytes.now file.now.sections m call n) }
{
    row[..file.sections.counts.names].fill(0);
    fill_row(file, m, call, row);
}

// The replacements of a submodel statement's call for model m, as the row of a level.
pub fn find_replacements(file: &View, m: usize, call: usize, rows: &mut [u16], level: usize)
    requires { ModelCall file.now.bytes.now file.now.sections m call
        × RowsAt file.now.bytes.now file.now.sections rows.old (level + 1) }
    ensures { RowsKept file.now.bytes.now file.now.sections level rows.old rows.new
        × ((n : ℕ) → by_table (contents_seen file.now).nodes
        (take most_names (drop (most_names * level) rows.new)) n ≡ replaced_by file.now.bytes.now file.now.sections m call n) }
{
    let from = MOST_NAMES * level;
    let to = from + MOST_NAMES;
    new_row(file, m, call, &mut rows[from..to]);
}
