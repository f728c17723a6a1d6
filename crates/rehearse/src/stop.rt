// Why the program stops before its end.
use ground::Answer;
use std::fmt::Display;
use std::io;

#[derive(Debug, Drop)]
pub enum Stop {
    // Something was refused, and the line that says so is printed.
    Told,
    // A line couldn't be printed.
    Unprinted(io::Error),
}

impl From<io::Error> for Stop {
    fn from(error: io::Error) -> Stop {
        Stop::Unprinted(error)
    }
}

// Refuses a word of the command line, with what is wrong about it.
pub fn refuse_word<T, D: Display + Drop>(rt: &impl Print, word: &[u8], why: D) -> Result<T, Stop> {
    console::refuse(rt, word, why)?;
    Err(Stop::Told)
}

// Refuses the string, a start or a session, by the number of the refusal and in words.
pub fn refuse<T, E: Answer + Display + Copy>(rt: &impl Print, error: E) -> Result<T, Stop> {
    println!(rt; "refused {}: {error}", error.said().number)?;
    Err(Stop::Told)
}
