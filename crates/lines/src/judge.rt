// Whether what is left of an area is zeros: its front is judged whole, and an area may be longer than any buffer.
use keeping::zeros::all_zeros;
use std::io::Read;

// Whether all that is left of a file is zeros; false where a read fails, since such a file counts as empty.
// The `for` ends with the file: none has u64::MAX pieces.
// A frame of its own: within the caller's, its piece would lie on the stack beside the lines.
#[inline(never)]
pub fn rest_is_zeros(file: &mut impl Read) -> bool {
    let mut piece = [0; 65536];
    for _ in 0..u64::MAX {
        match file.read(&mut piece) {
            Ok(0) => return true,
            Ok(n) if all_zeros(&piece[..n]) => {}
            _ => return false,
        }
    }
    false
}
