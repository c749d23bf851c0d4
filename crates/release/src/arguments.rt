// The program's arguments, each in a buffer as long as the longest path.
use std::env::FillError;
use std::io;
use std::io::ErrorKind;
use std::rt::Env;

fn is_there(rt: &impl Env, i: usize) -> bool {
    let mut one = [0; 1];
    !matches!(rt.arg(i, &mut one), Err(FillError::NotPresent))
}

// Whether the program has three arguments behind its own name.
pub fn are_three(rt: &impl Env) -> bool {
    is_there(rt, 3) && !is_there(rt, 4)
}

// Why an argument cannot be had, in the system's words.
fn not_had(error: FillError) -> io::Error {
    match error {
        FillError::NotPresent => io::Error::new(ErrorKind::InvalidInput, "Invalid argument"),
        FillError::TooLong => io::Error::new(ErrorKind::InvalidFilename, "File name too long"),
    }
}

// An argument's bytes.
pub fn argument<'a>(rt: &impl Env, i: usize, buffer: &'a mut [u8]) -> io::Result<&'a [u8]> {
    let n = rt.arg(i, buffer).map_err(not_had)?;
    Ok(&buffer[..n])
}
