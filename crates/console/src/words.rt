// The words of the command line.
ghost use Rattle.std.specs.Prelude.{◌≡◌, ◌≤◌, ◌<◌, ◌≢◌, ◌↔◌, length, take, IfOk, IsOkAnd, IsTrue, MatchResult};

use std::env::{Env, FillError};
use std::fmt::Display;
use std::io;

// The longest word that the programs read, in bytes.
pub const LONGEST_WORD: usize = 4096;

// Whether the runtime's answer is a word, be it one that is too long.
fn is_word(answer: Result<usize, FillError>) -> bool
    ensures { IsTrue result ↔ answer ≢ Err FillError.NotPresent }
{
    !matches!(answer, Err(FillError::NotPresent))
}

// Whether a word stands at a place; the first is the program's own name. Of which words there are the runtime's contract says nothing.
pub fn is_there(rt: &impl Env, at: usize) -> bool {
    is_word(rt.arg(at, &mut []))
}

// What the runtime's answer says of the space that it filled: the word in it, or why there is none.
fn filled(space: &[u8], answer: Result<usize, FillError>) -> Result<&[u8], FillError>
    requires { IfOk answer (λ n. n ≤ length space.now) }
    ensures { MatchResult answer (λ n. IsOkAnd result (λ w. w.now ≡ take n space.now)) (λ e. result ≡ Err e) }
{
    Ok(&space[..answer?])
}

// The word at a place, in a lent space; of one that is too long the space holds the beginning. Of which bytes come the runtime's contract says
// only how many they are at most.
pub fn word<'a>(rt: &impl Env, at: usize, space: &'a mut [u8]) -> Result<&'a [u8], FillError>
    ensures { IfOk result (λ w. length w.now ≤ length space.old) }
{
    let answer = rt.arg(at, space);
    filled(space, answer)
}

// A byte as a terminal can show it: a control byte would break the line.
fn shown(b: u8) -> u8
    ensures itself { 31 < b → b ≢ 127 → result ≡ b }
    ensures no_control { (31 < result) × (result ≢ 127) }
{
    if b.is_ascii_control() { b'?' } else { b }
}

// A word as it was given, which need not be UTF-8, so that a format can't take it; control bytes as `?`.
// Of what is printed the runtime's contract says nothing.
pub fn print_word(rt: &impl Print, word: &[u8]) -> io::Result<()> {
    for b in word {
        rt.write_all(&[shown(*b)])?;
    }
    Ok(())
}

// The line of a word that is refused, and why. Of what is printed the runtime's contract says nothing.
pub fn refuse<D: Display + Drop>(rt: &impl Print, word: &[u8], why: D) -> io::Result<()> {
    print!(rt; "refused: '")?;
    print_word(rt, word)?;
    println!(rt; "' {why}")
}
