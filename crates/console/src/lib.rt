// What the programs for a person share: the words of the command line, a number with its noun, a file read into a lent space.
#![tactic(auto)]

mod counted;
mod reading;
mod words;

pub use counted::Counted;
pub use reading::{FILE_SPACE, LONGEST_FILE, Problem, read};
pub use words::{LONGEST_WORD, is_there, print_word, refuse, word};
