// The words of the command line, each with a byte 0 after it: a word may have spaces, and may be empty.
use std::env::{Env, FillError};

// Room for one byte more than words may have.
pub const ROOM: usize = 4001;

// Puts all words at the front of the room, and answers what they fill; None if that is the whole room, or more.
pub fn put_all<'a, E: Env>(env: &E, room: &'a mut [u8]) -> Option<&'a [u8]> {
    let mut at = 0;
    for i in 1..usize::MAX {
        match env.arg(i, &mut room[at..]) {
            Ok(n) => {
                let end = at + n;
                if room.len() <= end + 1 {
                    return None;
                }
                room[end] = 0;
                at = end + 1;
            }
            Err(FillError::NotPresent) => return Some(&room[..at]),
            Err(FillError::TooLong) => return None,
        }
    }
    None
}
