// The lengths of the builder's own tables, by `Numbers` of definitions.
use ast::layout::{MOST_MODELS, MOST_NAMES};

// Of tables over the models: one entry for each two of them.
pub const MODEL_PAIRS: usize = MOST_MODELS * MOST_MODELS;

// From the entry of a model and itself to the next model's.
pub const NEXT_DIAGONAL: usize = MOST_MODELS + 1;

// A row of replacements by name for each model. An entry is the top node, plus 1, of what replaces the name, or 0:
// at most 1,024, so 16 bits hold it. An Option in each entry would make the rows, 16 KB of stack, twice as long.
// All rows stand in one slice, at least as long as the file needs: a contract takes row k of it by its place.
pub const ROWS: usize = MOST_NAMES * MOST_MODELS;

// The same of so few models that a short table does.
pub const FEW_MODELS: usize = 2;

pub const FEW_ROWS: usize = MOST_NAMES * FEW_MODELS;
