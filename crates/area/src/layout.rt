// The numbers of an answer area: its mosts, the lengths of its header and records, the word of each field, and the
// fates. `Numbers` of definitions has them.
use ast::kinds::NoKind;

pub const MOST_INSTANCES: usize = 1024;

pub const MOST_VARS: usize = 129;

pub const MOST_LISTED: usize = 256;

// The header and each section at its most, as the number that users lend.
pub const MOST_BYTES: usize = 55384;

// The greatest kind of error that exists: a bound of a word that is tested, and no kind.
pub const MOST_KIND: usize = 17;

// The lengths of the header and of records, in words; a node's is that of the file.
pub const HEADER_WORDS: usize = 10;

pub const STMT_WORDS: usize = 8;

pub const VAR_WORDS: usize = 12;

pub const DEP_WORDS: usize = 1;

pub const ERROR_WORDS: usize = 4;

// The same in bytes.
pub const HEADER_BYTES: usize = 4 * HEADER_WORDS;

pub const STMT_BYTES: usize = 4 * STMT_WORDS;

pub const VAR_BYTES: usize = 4 * VAR_WORDS;

pub const ERROR_BYTES: usize = 4 * ERROR_WORDS;

// All errors that are listed.
pub const ERRORS_BYTES: usize = ERROR_BYTES * MOST_LISTED;

// The words of the header that count records.
pub const HEADER_NODES: usize = 0;

pub const HEADER_STMTS: usize = 1;

pub const HEADER_VARS: usize = 2;

pub const HEADER_DEPS: usize = 3;

pub const HEADER_ERRORS: usize = 4;

pub const HEADER_INSTANCES: usize = 5;

// The words of a statement's record behind those that it has in the file.
pub const STMT_FATE: usize = 6;

pub const STMT_VARIABLE: usize = 7;

// The words of a variable's record in front of its bounds.
// A name, a time index and a held statement are plus 1, or 0 for none, as C reads the record.
pub const VAR_NAME: usize = 0;

pub const VAR_STATE: usize = 1;

pub const VAR_TIME_INDEX: usize = 2;

pub const VAR_FIRST_DEP: usize = 3;

pub const VAR_DEPS: usize = 4;

pub const VAR_HELD: usize = 5;

pub const VAR_INITIAL: usize = 6;

pub const VAR_TIMED: usize = 7;

// The words of an error's record.
pub const ERROR_KIND: usize = 0;

pub const ERROR_FROM: usize = 1;

pub const ERROR_TO: usize = 2;

pub const ERROR_NAME: usize = 3;

// The fates of statements. `Numbers` of definitions has their numbers; `as u32` is the word of one.
#[derive(Clone, Copy, Debug, PartialEq, Eq)]
pub enum Fate {
    // An initial condition of its variable.
    Initial = 1,
    // Its variable holds it.
    Held = 2,
    // A later rate equation of its variable is held.
    Replaced = 3,
    // Of no variable.
    LeftOver = 4,
}

impl TryFrom<u32> for Fate {
    ghost use Rattle.ast.specs.Kinds.{ReadAs};
    ghost use Rattle.area.specs.Fates.{fate_number};

    type Error = NoKind;

    ghost try_from_gives = { λ word r. ReadAs fate_number word r };

    #[tactic(auto, unfolding(ast::specs::Kinds::ReadAs))]
    fn try_from(word: u32) -> Result<Fate, NoKind> {
        match word {
            1 => Ok(Fate::Initial),
            2 => Ok(Fate::Held),
            3 => Ok(Fate::Replaced),
            4 => Ok(Fate::LeftOver),
            _ => Err(NoKind),
        }
    }
}

// Words and their bytes: a word is below WORD, and a bound is a float of two words.
pub const WORD: usize = 4294967296;

pub const WORD_BYTES: usize = 4;

pub const FLOAT_BYTES: usize = 8;

// Bytes within the header: the counts, and time's bounds.
pub const NODES_AT: usize = 4 * HEADER_NODES;

pub const STMTS_AT: usize = 4 * HEADER_STMTS;

pub const VARS_AT: usize = 4 * HEADER_VARS;

pub const DEPS_AT: usize = 4 * HEADER_DEPS;

pub const ERRORS_AT: usize = 4 * HEADER_ERRORS;

pub const INSTANCES_AT: usize = 4 * HEADER_INSTANCES;

pub const TIME_AT: usize = 24;

// Bytes within a record: the fate and its variable in a statement's, the bounds in a variable's, the span and the name
// in an error's.
pub const FATE_AT: usize = 4 * STMT_FATE;

pub const VARIABLE_AT: usize = 4 * STMT_VARIABLE;

pub const BOUNDS_AT: usize = 32;

pub const ERROR_FROM_AT: usize = 4 * ERROR_FROM;

pub const ERROR_TO_AT: usize = 4 * ERROR_TO;

pub const ERROR_NAME_AT: usize = 4 * ERROR_NAME;

// The refusal of an area that is shorter than the answer.
pub const SHORT_AREA: u32 = 1;

// The weight of the bytes used in what a build tells: they stand in the high 32 bits.
pub const HIGH: u64 = 4294967296;
