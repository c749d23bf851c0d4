// What an answer's bytes say in total.
use area::layout::{ERRORS_AT, FATE_AT, Fate, HEADER_BYTES, NODES_AT, STMT_BYTES, STMTS_AT};
use ast::layout::NODE_BYTES;
use std::fmt;
use std::fmt::{Display, Formatter};

// The word at a byte; 0 where the bytes end before, which an answer's never do.
fn word(bytes: &[u8], at: usize) -> u32 {
    match bytes.get(at..) {
        Some([a, b, c, d, ..]) => u32::from_le_bytes([*a, *b, *c, *d]),
        _ => 0,
    }
}

// How many statements have each fate.
#[derive(Clone, Copy, Default)]
struct Fates {
    initial: u64,
    held: u64,
    replaced: u64,
    left: u64,
}

impl Fates {
    // Those of an answer, whose statement records stand behind the header and the nodes.
    fn of(answer: &[u8]) -> Fates {
        let mut fates = Fates::default();
        let first = HEADER_BYTES + NODE_BYTES * word(answer, NODES_AT) as usize;
        let behind = answer.get(first..).unwrap_or(b"");
        let stmts = word(answer, STMTS_AT) as usize;
        for record in behind.chunks_exact(STMT_BYTES).take(stmts) {
            fates.count(word(record, FATE_AT));
        }
        fates
    }

    fn count(&mut self, fate: u32) {
        let stmts = match Fate::try_from(fate) {
            Ok(Fate::Initial) => &mut self.initial,
            Ok(Fate::Held) => &mut self.held,
            Ok(Fate::Replaced) => &mut self.replaced,
            Ok(Fate::LeftOver) => &mut self.left,
            Err(_) => return,
        };
        *stmts = stmts.saturating_add(1);
    }
}

impl Display for Fates {
    fn fmt<W: fmt::Write>(&self, f: &mut Formatter<W>) -> fmt::Result {
        let Fates {
            initial,
            held,
            replaced,
            left,
        } = self;
        write!(
            f,
            "initial conditions {initial}, held {held}, replaced {replaced}, left over {left}"
        )
    }
}

// How many bytes, errors and statements there are.
#[derive(Clone, Copy)]
pub struct Totals {
    bytes: usize,
    errors: u32,
    stmts: u32,
    fates: Fates,
}

impl Totals {
    pub fn of(answer: &[u8]) -> Totals {
        Totals {
            bytes: answer.len(),
            errors: word(answer, ERRORS_AT),
            stmts: word(answer, STMTS_AT),
            fates: Fates::of(answer),
        }
    }
}

impl Display for Totals {
    fn fmt<W: fmt::Write>(&self, f: &mut Formatter<W>) -> fmt::Result {
        let Totals {
            bytes,
            errors,
            stmts,
            fates,
        } = self;
        write!(
            f,
            "bytes {bytes} errors {errors} statements {stmts}: {fates}"
        )
    }
}
