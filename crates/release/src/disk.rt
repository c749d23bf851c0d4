// The tree file and the area file on disk, and what is known of a failure.
use files::read_full;
use std::fs::{OpenFile, OpenOptions};
use std::io::{Error, ErrorKind, Write};
use std::rt::Files;
use std::{fs, io};

// What failed, and why.
#[derive(Clone, Copy)]
pub enum Failed<'a> {
    // A tree file is longer than any: it is said without memory being asked for.
    TooLong(&'a str),
    By(&'a str, Error),
}

impl Failed<'_> {
    pub fn new(what: &str, why: Error) -> Failed<'_> {
        Failed::By(what, why)
    }
}

// A file's name as text: std opens no other.
pub fn name(path: &[u8]) -> Result<&str, Failed<'_>> {
    let why = Error::new(ErrorKind::InvalidFilename, "not UTF-8 text");
    str::from_utf8(path).map_err(|_| Failed::new("a file's name", why))
}

// Reads a tree file into a buffer that is longer than any.
pub fn read_tree<'a, 'b, R: Files>(
    rt: &R,
    path: &'a str,
    buffer: &'b mut [u8],
) -> Result<&'b [u8], Failed<'a>> {
    let mut file = fs::open(rt, path).map_err(|why| Failed::new(path, why))?;
    let n = read_full(&mut file, buffer).map_err(|why| Failed::new(path, why))?;
    if n == buffer.len() {
        return Err(Failed::TooLong(path));
    }
    Ok(&buffer[..n])
}

// Writes the bytes and closes the file. What the system could not keep shows before the file is closed.
fn write_whole<F: Write + OpenFile + Drop>(mut file: F, bytes: &[u8]) -> io::Result<()> {
    file.write_all(bytes)?;
    file.sync_all()
}

// Writes the bytes to a new file of this name. A file that has the name already is left as it is, and one that
// could not be written whole is removed.
pub fn write_new<R: Files>(rt: &R, path: &str, bytes: &[u8]) -> io::Result<()> {
    let file = OpenOptions::new()
        .write(true)
        .create_new(true)
        .open(rt, path)?;
    let written = write_whole(file, bytes);
    if written.is_err() {
        let _ = fs::remove_file(rt, path);
    }
    written
}
