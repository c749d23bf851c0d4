// Tables of starts with their places in a text.
ghost use Rattle.std.specs.Prelude.{◌≡◌, [], ◌+◌, ◌^◌, ◌<◌, length};
ghost use Rattle.positions.specs.Positions.{place_of};
ghost use Rattle.positions.specs.Pieces.{Found, starts, placed, Advanced, Taken};

use super::{End, Entry, Place};

// The place of an entry's start in the text with the piece, from that in the text so far, whose end is `end`.
fn look(piece: &[u8], end: End, entry: Entry) -> Option<Place>
    requires { end.size + length piece.now < 2 ^ 40 }
    ensures { Found end piece.now entry.start entry.place result }
{
    if entry.start <= end.size {
        return entry.place;
    }
    let n = (entry.start - end.size) as usize;
    if piece.len() < n {
        return entry.place;
    }
    let at = end.walk(&piece[..n]);
    Some(Place {
        line: at.line,
        column: at.column,
    })
}

// The table with a piece. Only a start that lies in the piece makes it be walked.
fn advance(piece: &[u8], end: End, entries: &mut [Entry])
    requires { end.size + length piece.now < 2 ^ 40 }
    ensures { Advanced end piece.now entries.old entries.new }
{
    for entry in entries.iter_mut() {
        entry.place = look(piece, end, *entry);
    }
}

// Takes a piece into the table, and gives the end of the text with it.
// That the text stays short is a fact of the end and the piece together, and so of neither type.
pub fn take_piece(piece: &[u8], end: End, entries: &mut [Entry]) -> End
    requires { end.size + length piece.now < 2 ^ 40 }
    ensures { Taken end piece.now result entries.old entries.new }
{
    advance(piece, end, entries);
    end.walk(piece)
}

// The place of a start in no text.
fn first(start: u64) -> Option<Place>
    ensures { result ≡ place_of [] start }
{
    if start == 0 {
        return Some(Place { line: 1, column: 1 });
    }
    None
}

// The table of no text.
pub fn begin(entries: &mut [Entry])
    ensures { entries.new ≡ placed [] (starts entries.old) }
{
    for entry in entries.iter_mut() {
        entry.place = first(entry.start);
    }
}
