// What is printed of an area whose front has been read.
ghost use Rattle.std.specs.Prelude.{true, ◌≡◌, ◌*◌, ◌≤◌, length, take};
ghost use Rattle.io.specs.Counts.{IsPrefixLen};
ghost use Rattle.definitions.specs.Numbers.{most_listed};
ghost use Rattle.definitions.specs.Layout.{plain, most_kind, keeps_layout};
ghost use Rattle.report.specs.Lines.{most_line};
ghost use Rattle.report.specs.Tabled.{Printed};

use super::text::places;
use area::layout::MOST_LISTED;
use ast::places::RecordView;
use files::failure;
use keeping::sections::sections_in;
use positions::Entry;
use report::lines::put_lines;
use report::starts::note_starts;
use std::io;
use std::rt::Files;

// An entry for each error that can be listed.
// An array of full length: all entries are there before the text is read, and those behind the errors are unused.
fn table() -> [Entry; MOST_LISTED]
    ensures { most_listed ≡ length result }
{
    let place = None;
    [Entry { start: 0, place }; MOST_LISTED]
}

// Writes the lines of an area and of the text in a file, and gives their length.
fn lines_of(
    rt: &impl Files,
    area: &[u8],
    path: &str,
    entries: &mut [Entry],
    out: &mut [u8],
) -> usize
    requires { (keeps_layout plain most_kind area.now ≡ true)
        × (length entries.old ≡ most_listed)
        × (most_listed * most_line ≤ length out.old) }
    ensures { IsPrefixLen result out.new
        × Printed area.now (take result out.new) }
{
    let s = sections_in(area);
    let errors = RecordView {
        bytes: area,
        records: s.errors,
    };
    note_starts(&errors, entries);
    places(rt, path, entries);
    put_lines(&errors, entries, out)
}

// Prints the lines of an area and of the text in a file.
// A match, since what is printed of an error can fail itself.
pub fn print_lines<R: Files + Print + Eprint + Alloc>(
    rt: &R,
    area: &[u8],
    path: &str,
) -> io::Result<()>
    requires { keeps_layout plain most_kind area.now ≡ true }
{
    let mut entries = table();
    let mut out = [0u8; 65536];
    let n = lines_of(rt, area, path, &mut entries, &mut out);
    match rt.write_all(&out[..n]) {
        Ok(()) => Ok(()),
        Err(error) => rt.eprintln(failure(rt, "lines: standard output", error)?),
    }
}
