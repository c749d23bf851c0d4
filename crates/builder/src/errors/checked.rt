// What models and expressions are checked with. The functions that check them are in `builder` and `check`.
ghost use Rattle.ast.specs.Opens.{file_in};
ghost use Rattle.builder.specs.Checking.{Scoped};
ghost use Rattle.builder.specs.Tables.{Rules};

use crate::source::Classed;
use ast::layout::MOST_NAMES;
use ast::places::NodeView;
use functions::Rule;

// What a file's expressions are checked with: the class and the rule of each name.
#[derive(Clone, Copy)]
pub struct Tables<'a> {
    pub names: Classed<'a>,
    pub rules: &'a [Rule; MOST_NAMES],
    pub ghost ruled: { Rules (file_in names.file.bytes.now names.file.sections).names rules.now },
}

// What is checked, and against what: nodes by place, the file's or those of an answer's area, and the model whose
// variables count, with the tables and its variables by name.
#[derive(Clone, Copy)]
pub struct Checked<'a> {
    pub nodes: NodeView<'a>,
    pub tables: &'a Tables<'a>,
    pub model: usize,
    pub vars: &'a [u16; MOST_NAMES],
    pub ghost scoped: { Scoped tables.now.names.file.bytes.now tables.now.names.file.sections model vars.now },
}
