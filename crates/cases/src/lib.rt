// The lines of docs/CASES.md, for the programs that answer them: a line out of the input, its words, and the transcript.
#![tactic(auto)]

pub mod lines;
pub mod output;
pub mod words;
