// One line for each listed error, from the table of their starts and the places of these.
ghost use Rattle.std.specs.Prelude.{◌≡◌, ◌+◌, ◌*◌, ◌≤◌, ◌<◌, length};
ghost use Rattle.ast.specs.Bytes.{front, put};
ghost use Rattle.ast.specs.Views.{records_seen, record_seen};
ghost use Rattle.definitions.specs.Numbers.{most_listed, error_length};
ghost use Rattle.report.specs.Lines.{line_for, place_as, most_line};
ghost use Rattle.report.specs.Tabled.{tabled_place, tabled_lines, Tabled};

use super::decimals::put_field;
use area::layout::{ERROR_FROM, ERROR_KIND, ERROR_TO};
use ast::places::RecordView;
use positions::shown::shown;
use positions::{Entry, Place};

// What is printed where there is no place.
const NOWHERE: Place = Place { line: 0, column: 0 };

const SPACE: u8 = b' ';

const NEWLINE: u8 = b'\n';

// Writes a line, 0 and 0 where there is no place, and gives the place behind it.
// The bytes and the place go side by side: the contract is an equation between the bytes before and after.
fn put_line(out: &mut [u8], at: usize, place: Option<Place>, kind: u64) -> usize
    requires { at + most_line ≤ length out.old }
    ensures { (result ≡ at + length (line_for (place_as place) kind))
        × (result ≤ at + most_line)
        × (out.new ≡ put out.old at (line_for (place_as place) kind)) }
{
    let place = place.unwrap_or(NOWHERE);
    let second = put_field(out, at, place.line, SPACE);
    let third = put_field(out, second, place.column, SPACE);
    put_field(out, third, kind, NEWLINE)
}

// What is shown for error i, whose start has a place.
fn place_of(es: &RecordView, i: usize, place: Option<Place>) -> Option<Place>
    requires { (error_length ≤ es.now.records.width)
        × (i < es.now.records.count) }
    ensures { result ≡ tabled_place place (record_seen es.now i) }
{
    let from = es.word(i, ERROR_FROM) as u64;
    let to = es.word(i, ERROR_TO) as u64;
    shown(from, to, place)
}

// Writes the lines of all errors at the front, and gives their length.
// Entry i is that of error i. It answers a length, since `out` is the caller's and is printed there.
pub fn put_lines(es: &RecordView, entries: &[Entry], out: &mut [u8]) -> usize
    requires { Tabled es.now.records es.now.bytes.now entries.now
        × (es.now.records.count ≤ most_listed)
        × (most_listed * most_line ≤ length out.old) }
    ensures { (result ≡ length (tabled_lines entries.now
        (records_seen es.now)))
        × (out.new ≡ front out.old (tabled_lines entries.now
        (records_seen es.now))) }
{
    let mut at = 0;
    for i in 0..es.records.count {
        let place = place_of(es, i, entries[i].place);
        let kind = es.word(i, ERROR_KIND) as u64;
        at = put_line(out, at, place, kind);
    }
    at
}
