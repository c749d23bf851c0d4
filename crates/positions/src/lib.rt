// Line and column of places in a text that comes piece by piece: any number of places in one pass. A text is at most
// 2^40 bytes.
#![tactic(auto)]

ghost use Rattle.std.specs.Prelude.{◌+◌, ◌≤◌};

pub mod ends;
pub mod shown;
pub mod tables;

// The end of the text so far: its length, and the line and the column there.
#[derive(Clone, Copy, Debug, PartialEq, Eq)]
pub struct End {
    pub size: u64,
    pub line: u64,
    pub column: u64,
    ghost line_within: { line ≤ size + 1 },
    ghost column_within: { column ≤ size + 1 },
}

// A line and a column.
#[derive(Clone, Copy, Debug, PartialEq, Eq)]
pub struct Place {
    pub line: u64,
    pub column: u64,
}

// A start, and its place in the text so far: none where the text ends before it.
#[derive(Clone, Copy, Debug, PartialEq, Eq)]
pub struct Entry {
    pub start: u64,
    pub place: Option<Place>,
}
