// Reads a text once, piece by piece, into the table of the starts with their places. A contract cannot say which bytes
// are read: these say that the table is that of a text.
ghost use Rattle.std.specs.Prelude.{◌≡◌, [], ◌^◌, ◌≤◌, length};
ghost use Rattle.positions.specs.Pieces.{starts, placed, OfText};

use positions::tables::{begin, take_piece};
use positions::{End, Entry};
use std::io::Read;
use std::rt::Files;
use std::{fs, io};

// Every start is a word, so what stands behind so many bytes is not asked for.
const WORD: u64 = 4294967296;

// Takes in a file to its end, by way of a buffer.
fn follow(file: &mut impl Read, piece: &mut [u8], entries: &mut [Entry]) -> io::Result<()>
    requires { (length piece.old ≤ 2 ^ 16)
        × (entries.old ≡ placed [] (starts entries.old)) }
    ensures { OfText (starts entries.old) entries.new }
{
    // It ends where the file does or behind WORD bytes. A read puts as many bytes as it likes, so this is no `for`.
    let mut end = End::new();
    while end.size < WORD {
        let n = file.read(piece)?;
        if n == 0 {
            break;
        }
        end = take_piece(&piece[..n], end, entries);
    }
    Ok(())
}

// Takes in the text in a file.
fn read_text(rt: &impl Files, path: &str, entries: &mut [Entry]) -> io::Result<()>
    requires { entries.old ≡ placed [] (starts entries.old) }
    ensures { OfText (starts entries.old) entries.new }
{
    let mut file = fs::open(rt, path)?;
    let mut piece = [0u8; 65536];
    follow(&mut file, &mut piece, entries)
}

// The table of the text in a file. One that cannot be read to its end counts as empty.
pub fn places(rt: &impl Files, path: &str, entries: &mut [Entry])
    ensures { OfText (starts entries.old) entries.new }
{
    begin(entries);
    if read_text(rt, path, entries).is_err() {
        begin(entries);
    }
}
