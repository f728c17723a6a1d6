// Reads cases on standard input, a line each, runs them and writes the transcript on standard output.
#![tactic(auto)]

mod auto;
mod begin;
mod case;
mod firmware;
mod kinds;
mod leaves;
mod row;
mod sessions;
mod starting;
mod store;
mod told;
mod transcript;

use cases::output::Transcript;
use cases::{lines, words};
use kinds::Kind;
use std::io;
use std::io::{Read, Write};

// Answers a line; by a match, so that no kind is left out. `bytes` takes the bytes of its HEX words, and `store` is the page store;
// `firmware` and `pages` are what sessions lend.
fn answer<W: Write>(
    line: &[u8],
    bytes: &mut [u8],
    store: &mut [u32],
    firmware: &[u8; firmware::LONGEST],
    pages: &mut [u32],
    sink: &mut W,
    out: &mut Transcript<'_>,
) -> io::Result<()> {
    match kinds::of(line) {
        Kind::Passed => Ok(()),
        Kind::Bad => out.bad_line(sink),
        Kind::Descriptor => leaves::descriptor(line, bytes, sink, out),
        Kind::Reply => leaves::reply(line, bytes, sink, out),
        Kind::Layout => leaves::layout(line, bytes, store, sink, out),
        Kind::String => leaves::string(line, bytes, store, sink, out),
        Kind::Detach => leaves::detach(sink, out),
        Kind::Begin => begin::begin(line, sink, out),
        Kind::Session => sessions::session(line, bytes, firmware, pages, sink, out),
        Kind::Suffix => leaves::suffix(line, bytes, sink, out),
    }
}

// Goes through the input, and writes out what is left of the transcript, at the input's end and where it can't be read. Each turn hands the
// next its place, and both lend the one line's buffer, so this is no iterator.
fn run<R: Read, W: Write>(
    source: &mut R,
    sink: &mut W,
    input: &mut [u8],
    line: &mut [u8],
    bytes: &mut [u8],
    store: &mut [u32],
    firmware: &[u8; firmware::LONGEST],
    pages: &mut [u32],
    out: &mut Transcript<'_>,
) -> io::Result<()> {
    let mut place = lines::start();
    while 0 < place.turns {
        place = match lines::next(source, place, input, line) {
            Ok(next) => next,
            Err(e) => {
                out.flush(sink)?;
                return Err(e);
            }
        };
        if place.whole {
            let line = words::first(line, place.len);
            answer(line, bytes, store, firmware, pages, sink, out)?;
        }
    }
    out.flush(sink)
}

// A line has at most 65,535 bytes, so one that fills its buffer is too long.
fn main(rt: HostRuntime) -> io::Result<()> {
    let mut firmware = [0u8; firmware::LONGEST];
    firmware::fill(&mut firmware);
    let mut out = Transcript {
        bytes: &mut [0u8; 65536],
        held: 0,
    };
    run(
        &mut rt.stdin(),
        &mut rt.stdout(),
        &mut [0u8; 65536],
        &mut [0u8; 65536],
        &mut [0u8; 32768],
        &mut [store::MARK; 8192],
        &firmware,
        &mut [0u32; 8192],
        &mut out,
    )
}
