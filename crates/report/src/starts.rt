// Where the listed errors' spans start.
ghost use Rattle.std.specs.Prelude.{◌≤◌, length};
ghost use Rattle.ast.specs.Views.{records_seen};
ghost use Rattle.definitions.specs.Numbers.{error_length};
ghost use Rattle.report.specs.Tabled.{Noted};

use area::layout::ERROR_FROM;
use ast::places::RecordView;
use positions::Entry;

// Notes them in a table.
// By number: an error's record is asked for by it.
pub fn note_starts(es: &RecordView, entries: &mut [Entry])
    requires { (error_length ≤ es.now.records.width)
        × (es.now.records.count ≤ length entries.old) }
    ensures { Noted (records_seen es.now) entries.old entries.new }
{
    for i in 0..es.records.count {
        entries[i].start = es.word(i, ERROR_FROM) as u64;
    }
}
