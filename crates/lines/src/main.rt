// lines AREA TEXT: prints one line for each listed error of an answer area: line, column, kind, as decimals parted by
// one space. A file that is missing, cannot be read or has a name that is not UTF-8 text counts as empty. An area that
// breaks its layout prints nothing.
#![tactic(auto)]

mod judge;
mod print;
mod text;

use area::layout::MOST_KIND;
use files::read_full;
use judge::rest_is_zeros;
use keeping::kept::keeps_layout;
use print::print_lines;
use std::rt::Env;
use std::{fs, io};

// The name of a file, which is text since std opens no other. One that is missing, too long for a path or no UTF-8 text
// is empty, and no file has that name.
// Opening it fails as for a file that is not there, so no Option is asked for.
fn name<'a>(rt: &impl Env, i: usize, buffer: &'a mut [u8]) -> &'a str {
    match rt.arg(i, buffer) {
        Ok(n) => str::from_utf8(&buffer[..n]).unwrap_or(""),
        Err(_) => "",
    }
}

// Nothing is printed before the whole area is judged: its front, which is as long as the buffer or all that there is,
// and what is left of its file, which has to be zeros. Arguments behind the second are not looked at.
fn main(rt: HostRuntime) -> io::Result<()> {
    let mut area = [0; 4096];
    let mut text = [0; 4096];
    let mut front = [0; 65536];
    let Ok(mut file) = fs::open(&rt, name(&rt, 1, &mut area)) else {
        return Ok(());
    };
    let Ok(n) = read_full(&mut file, &mut front) else {
        return Ok(());
    };
    if keeps_layout(&front[..n], MOST_KIND) && rest_is_zeros(&mut file) {
        print_lines(&rt, &front[..n], name(&rt, 2, &mut text))?;
    }
    Ok(())
}
