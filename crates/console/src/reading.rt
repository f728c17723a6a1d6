// A file, read into a lent space.
ghost use Rattle.std.specs.Prelude.{Some, ◌≡◌, ◌⊎◌, ℕ, ◌-◌, ◌<◌, ◌≢◌, List, length, true, false, IfOk, IfErr, IsUtf8};
ghost use Rattle.std.specs.Io.KnownBytes.{Consumes, IsAtEnd};
ghost use Rattle.console.specs.Came.{Came};
ghost use Rattle.console.specs.Problem.{problem_text};
ghost use Rattle.console.specs.Whole.{Said};

use std::fs::Files;
use std::io::{ErrorKind, Read};
use std::{fmt, fs, str};

// The longest file that the programs read, in bytes.
pub const LONGEST_FILE: usize = 4194304;

// One byte more, so that a longer file shows.
pub const FILE_SPACE: usize = LONGEST_FILE + 1;

// Why a file can't be had.
#[derive(Clone, Copy, Debug, PartialEq, Eq)]
pub enum Problem {
    NotThere,
    CannotOpen,
    CannotRead,
    TooLong { longest: usize },
}

impl fmt::Display for Problem {
    ghost output = { λ problem. Some (problem_text problem) };

    fn fmt<W: fmt::Write>(&self, f: &mut fmt::Formatter<W>) -> fmt::Result {
        match self {
            Problem::NotThere => write!(f, "is not there"),
            Problem::CannotOpen => write!(f, "can't be opened"),
            Problem::CannotRead => write!(f, "can't be read"),
            Problem::TooLong { longest } => write!(f, "is longer than {longest} bytes"),
        }
    }
}

impl std::error::Error for Problem {}

// Opens the file of a name. The system's files are opened by names that are UTF-8.
fn open<R: Files>(rt: &R, name: &[u8]) -> Result<R::File, Problem>
    ensures kinds { IfErr result (λ problem. (problem ≡ Problem.NotThere) ⊎ (problem ≡ Problem.CannotOpen)) }
    ensures not_text { ¬ (IsUtf8 name.now) → result ≡ Err Problem.CannotOpen }
{
    let Ok(name) = str::from_utf8(name) else {
        return Err(Problem::CannotOpen);
    };
    fs::open(rt, name).map_err(|error| match error.kind() {
        ErrorKind::NotFound => Problem::NotThere,
        _ => Problem::CannotOpen,
    })
}

// Reads until the space is full or the file ends: how many bytes came; as an error, how many came before a read that failed.
fn fill<F: Read>(file: &mut F, space: &mut [u8]) -> Result<usize, usize>
    ensures ok { IfOk result (Came (F.remaining file.old) (F.remaining file.new) space.new) }
    ensures end { IfOk result (λ n. n < length space.new → IsAtEnd (F.remaining file.new)) }
    ensures err { IfErr result (Came (F.remaining file.old) (F.remaining file.new) space.new) }
{
    let mut n = 0;
    while n < space.len() {
        match file.read(&mut space[n..]) {
            Ok(0) => break,
            Ok(more) => n += more,
            Err(_) => return Err(n),
        }
    }
    Ok(n)
}

// Reads an open file: its bytes are a part of the space, which is longer than they are.
fn whole<'a, F: Read, W: FnOnce(&mut F, Result<usize, usize>) -> bool>(
    file: &mut F,
    space: &'a mut [u8],
    is_whole: W,
) -> Result<&'a [u8], Problem>
    requires { W.IsAlwaysCallable is_whole }
    ensures ok { IfOk result (λ bytes. (length bytes.now < length space.old) × Said W.FnOnce F.remaining is_whole file.old bytes.now true) }
    ensures cannot_read { result ≡ Err Problem.CannotRead → (bytes : List ℕ) × (length bytes < length space.old) × Said W.FnOnce F.remaining is_whole file.old bytes false }
    ensures too_long { (n : ℕ) → result ≡ Err (Problem.TooLong n) → (n ≡ length space.old - 1) × (bytes : List ℕ) × (length bytes ≡ length space.old) × Consumes (F.remaining file.old) (F.remaining file.new) bytes }
    ensures other { (result ≢ Err Problem.NotThere) × (result ≢ Err Problem.CannotOpen) }
{
    let filled = fill(file, space);
    let (Ok(n) | Err(n)) = filled;
    if n == space.len() {
        return Err(Problem::TooLong {
            longest: n.saturating_sub(1),
        });
    }
    if !is_whole(file, filled) {
        return Err(Problem::CannotRead);
    }
    Ok(&space[..n])
}

// Reads the file of a name: its bytes are a part of the space, which is longer than the longest file that is read. Whether what came is the
// whole file says the caller's function; the `requires` is that it may be called, which every closure without one of its own meets.
pub fn read<'a, R: Files, F: FnOnce(&mut R::File, Result<usize, usize>) -> bool>(
    rt: &R,
    name: &[u8],
    space: &'a mut [u8],
    is_whole: F,
) -> Result<&'a [u8], Problem>
    requires { F.IsAlwaysCallable is_whole }
    ensures not_text { ¬ (IsUtf8 name.now) → result ≡ Err Problem.CannotOpen }
    ensures ok { IfOk result (λ bytes. (length bytes.now < length space.old) × (file : R.File) × Said F.FnOnce R.File.remaining is_whole file bytes.now true) }
    ensures cannot_read { result ≡ Err Problem.CannotRead → (file : R.File) × (bytes : List ℕ) × (length bytes < length space.old) × Said F.FnOnce R.File.remaining is_whole file bytes false }
    ensures too_long { (n : ℕ) → result ≡ Err (Problem.TooLong n) → (n ≡ length space.old - 1) × (before : R.File) × (after : R.File) × (bytes : List ℕ) × (length bytes ≡ length space.old) × Consumes (R.File.remaining before) (R.File.remaining after) bytes }
{
    let mut file = open(rt, name)?;
    whole(&mut file, space, is_whole)
}
