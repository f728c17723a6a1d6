// The firmware's file.
use crate::stop::{Stop, refuse_word};
use console::{FILE_SPACE, LONGEST_WORD, Problem, word};
use std::env::Env;
use std::fs::Files;

// Reads the file that the word at a place names.
#[inline(never)]
pub fn read<'a>(
    rt: &(impl Env + Files + Print),
    at: usize,
    space: &'a mut [u8; FILE_SPACE],
) -> Result<&'a [u8], Stop> {
    let mut name = [0u8; LONGEST_WORD];
    let name = word(rt, at, &mut name).unwrap_or(&[]);
    match console::read(rt, name, space, |_, filled| filled.is_ok()) {
        Ok(firmware) => Ok(firmware),
        // A file that is not there is told as one that can't be opened.
        Err(Problem::NotThere) => refuse_word(rt, name, Problem::CannotOpen),
        Err(problem) => refuse_word(rt, name, problem),
    }
}
