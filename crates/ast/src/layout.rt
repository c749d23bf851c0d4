// The numbers of a tree file: its form, its mosts, the lengths of its records, and the word of each field.
// `FileNumbers` has them for the definitions. A record's words go by number: the format is words, and one is asked
// for at a time, where a struct would be read whole.
pub const FORM: usize = 1;

// The mosts; that of the text in bytes.
pub const MOST_TEXT: usize = 4096;

pub const MOST_NAMES: usize = 256;

pub const MOST_NODES: usize = 1024;

pub const MOST_DEPS: usize = 1024;

pub const MOST_UNKNOWNS: usize = 128;

pub const MOST_STMTS: usize = 256;

pub const MOST_MODELS: usize = 32;

// The lengths of records, in words.
pub const NAME_WORDS: usize = 2;

pub const NODE_WORDS: usize = 8;

pub const UNKNOWN_WORDS: usize = 10;

pub const STMT_WORDS: usize = 6;

pub const MODEL_WORDS: usize = 7;

pub const TRAILER_WORDS: usize = 8;

// The same in bytes.
pub const NAME_BYTES: usize = 4 * NAME_WORDS;

pub const NODE_BYTES: usize = 4 * NODE_WORDS;

pub const DEP_BYTES: usize = 4;

pub const UNKNOWN_BYTES: usize = 4 * UNKNOWN_WORDS;

pub const STMT_BYTES: usize = 4 * STMT_WORDS;

pub const MODEL_BYTES: usize = 4 * MODEL_WORDS;

pub const TRAILER_BYTES: usize = 4 * TRAILER_WORDS;

// The words of a name: where it begins in the text, and its length.
pub const NAME_START: usize = 0;

pub const NAME_LENGTH: usize = 1;

// The words of a node: an operator's sign or a call's count of arguments is one word, a number's bits are two.
pub const NODE_KIND: usize = 0;

pub const NODE_NAME: usize = 1;

pub const NODE_OP: usize = 2;

pub const NODE_SIZE: usize = 3;

pub const NODE_FROM: usize = 4;

pub const NODE_TO: usize = 5;

pub const NODE_BITS: usize = 6;

pub const NODE_HIGH: usize = 7;

// The words of an unknown: each bound's bits are two; a named domain has its name where a range has its lower bound.
pub const UNKNOWN_NAME: usize = 0;

pub const UNKNOWN_FIRST_DEP: usize = 1;

pub const UNKNOWN_DEPS: usize = 2;

pub const UNKNOWN_DOMAIN: usize = 3;

pub const UNKNOWN_LOWER: usize = 4;

pub const UNKNOWN_DOMAIN_NAME: usize = 4;

pub const UNKNOWN_LOWER_HIGH: usize = 5;

pub const UNKNOWN_UPPER: usize = 6;

pub const UNKNOWN_FROM: usize = 8;

pub const UNKNOWN_TO: usize = 9;

// The words of a statement: the tops of its trees, or the call's of a submodel statement in place of the right side's.
pub const STMT_KIND: usize = 0;

pub const STMT_NAME: usize = 1;

pub const STMT_LEFT: usize = 2;

pub const STMT_RIGHT: usize = 3;

pub const STMT_FROM: usize = 4;

pub const STMT_TO: usize = 5;

// The words of a model.
pub const MODEL_NAME: usize = 0;

pub const MODEL_FIRST_UNKNOWN: usize = 1;

pub const MODEL_UNKNOWNS: usize = 2;

pub const MODEL_FIRST_STMT: usize = 3;

pub const MODEL_STMTS: usize = 4;

pub const MODEL_FROM: usize = 5;

pub const MODEL_TO: usize = 6;

// The words of the trailer: the counts, that of the text in bytes, and the form.
pub const TRAILER_TEXT: usize = 0;

pub const TRAILER_NAMES: usize = 1;

pub const TRAILER_NODES: usize = 2;

pub const TRAILER_DEPS: usize = 3;

pub const TRAILER_UNKNOWNS: usize = 4;

pub const TRAILER_STMTS: usize = 5;

pub const TRAILER_MODELS: usize = 6;

pub const TRAILER_FORM: usize = 7;

// Both words of a missing span: a file has words only.
pub const MISSING: u64 = 4294967295;
