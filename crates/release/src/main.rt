// release TREEFILE ROOT AREAFILE: builds the model named ROOT of a tree file, writes the answer's bytes to a new file
// and prints one line: the number (0, or the refusal's) and the bytes used, the errors counted, the statements and how
// many of each fate. Where the build is refused, or something cannot be read or the area file not be written, no new
// file is left. The names of the files are UTF-8 text.
#![tactic(auto)]

mod answer;
mod arguments;
mod disk;
mod line;

use answer::Totals;
use arguments::argument;
use builder::build::build;
use disk::{Failed, name, read_tree, write_new};
use files::failure;
use line::Line;
use std::io;
use std::io::{Error, ErrorKind};
use std::rt::{Env, Files};

// A byte more than is taken for a tree file: none has over 55,200.
const FILE: usize = 65537;

// Room for any answer: none has over 55,384 bytes.
const AREA: usize = 65536;

// Builds, writes the answer, and gives the line to print. The arguments are put into the three buffers.
fn release<'a, R: Env + Files>(
    rt: &R,
    from: &'a mut [u8],
    root: &'a mut [u8],
    to: &'a mut [u8],
) -> Result<Line, Failed<'a>> {
    // Both are made first: behind a call they would be set to 0 a second time.
    let mut buffer = [0; FILE];
    let mut area = [0; AREA];
    let from = argument(rt, 1, from).map_err(|why| Failed::new("release: TREEFILE", why))?;
    let root = argument(rt, 2, root).map_err(|why| Failed::new("release: ROOT", why))?;
    let to = argument(rt, 3, to).map_err(|why| Failed::new("release: AREAFILE", why))?;
    let from = name(from)?;
    let file = read_tree(rt, from, &mut buffer)?;
    let used = match build(file, root, &mut area) {
        Ok(used) => used,
        Err(refused) => return Ok(Line::Refused(refused)),
    };
    let Some(answer) = area.get(..used) else {
        let why = Error::new(ErrorKind::InvalidData, "more bytes used than there are");
        return Err(Failed::new("release", why));
    };
    let to = name(to)?;
    write_new(rt, to, answer).map_err(|why| Failed::new(to, why))?;
    Ok(Line::Written(Totals::of(answer)))
}

fn main(rt: HostRuntime) -> io::Result<()> {
    if !arguments::are_three(&rt) {
        return eprintln!(rt; "usage: release TREEFILE ROOT AREAFILE");
    }
    let mut from = [0; 4096];
    let mut root = [0; 4096];
    let mut to = [0; 4096];
    match release(&rt, &mut from, &mut root, &mut to) {
        Ok(line) => rt.println(line),
        Err(Failed::TooLong(path)) => eprintln!(rt; "{path}: longer than any tree file"),
        Err(Failed::By(what, why)) => rt.eprintln(failure(&rt, what, why)?),
    }
}
