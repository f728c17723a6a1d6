// The interface string, and what is wrong about it.
ghost use Rattle.std.specs.Prelude.{◌≤◌, length};

use crate::stop::{Stop, refuse};
use crate::words::Words;
use console::{LONGEST_WORD, print_word, word};
use ground::Version;
use memory_layout::Error as Fault;
use protocol::{DfuProtocol, Error, Interface};
use std::env::Env;
use std::io;
use std::ops::Range;

// A part of at least one byte: an empty one is shown where it would stand.
fn part(from: usize, to: usize) -> Range<usize> {
    from..to.max(from.saturating_add(1))
}

// Where the text after the last slash starts.
fn after_slash(string: &[u8]) -> usize
    ensures { result ≤ length string.now }
{
    match string.iter().rposition(|b| *b == b'/') {
        Some(at) => at.saturating_add(1),
        None => 0,
    }
}

// Part of the layout, which starts after the last slash.
fn in_layout(string: &[u8], at: usize, len: usize) -> Range<usize> {
    let from = after_slash(string).saturating_add(at);
    part(from, from.saturating_add(len))
}

// The address, between the last two slashes.
fn address(string: &[u8]) -> Range<usize> {
    let to = after_slash(string).saturating_sub(1);
    part(after_slash(&string[..to]), to)
}

// The part that an error is about.
fn part_of(string: &[u8], error: Error) -> Range<usize> {
    match error {
        Error::UnknownProtocol | Error::TextTooLong | Error::MemoryLayout(Fault::TextTooLong) =>
            0..1,
        Error::InvalidInterfaceString => part(0, string.len()),
        Error::InvalidAddress => address(string),
        Error::MemoryLayout(
            Fault::InvalidPageFormat { at, len }
            | Fault::ParseErrorPageCount { at, len }
            | Fault::ParseErrorPageSize { at, len }
            | Fault::InvalidPrefix { at, len },
        ) => in_layout(string, at, len),
        Error::MemoryLayout(Fault::PageTooLarge | Fault::TooManyPages) => {
            in_layout(string, 0, string.len())
        }
    }
}

// The mark below a byte. A byte that goes on a character of several bytes has none.
fn mark(b: u8, at: usize, part: &Range<usize>) -> &'static str {
    if b / 64 == 2 || part.end <= at {
        ""
    } else if at < part.start {
        " "
    } else {
        "^"
    }
}

// The string, and carets below a part of it; one that starts at its end has one behind it.
fn show(rt: &impl Print, string: &[u8], part: Range<usize>) -> io::Result<()> {
    print_word(rt, string)?;
    println!(rt)?;
    for (at, b) in string.iter().enumerate() {
        print!(rt; "{}", mark(*b, at, &part))?;
    }
    println!(rt; "{}", if string.len() <= part.start { "^" } else { "" })
}

// Reads the string, whose pages go into the store, or shows why not.
#[inline(never)]
pub fn read(rt: &(impl Env + Print), words: Words, store: &mut [u32]) -> Result<Interface, Stop> {
    let mut space = [0u8; LONGEST_WORD];
    let string = word(rt, words.string, &mut space).unwrap_or(&[]);
    let minor = if words.options.plain { 0x10 } else { 0x1a };
    match DfuProtocol::new(string, Version(1, minor), store) {
        Ok(interface) => Ok(interface),
        Err(error) => {
            show(rt, string, part_of(string, error))?;
            refuse(rt, error)
        }
    }
}
