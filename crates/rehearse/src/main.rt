// Rehearses an update without a device: what it would erase and send, how many transfers it takes, and how it ends.
#![tactic(auto)]

mod file;
mod list;
mod rehearsal;
mod report;
mod run;
mod stop;
mod string;
mod usage;
mod warnings;
mod words;

use console::FILE_SPACE;
use memory_layout::MAX_PAGES;
use rehearsal::Rehearsal;
use std::env::Env;
use std::fs::Files;
use std::io;
use stop::Stop;
use words::Words;

// Reads the interface string, whose pages go into a store, and the firmware, and rehearses its download. Never inlined, nor is what reads
// them: a function takes the stack and the time of its locals where it begins, so what is refused before needs no space for a file, and
// a word's space is gone when the rehearsal begins.
#[inline(never)]
fn with_words(rt: &(impl Env + Files + Print), words: Words) -> Result<(), Stop> {
    let mut store = [0u32; MAX_PAGES];
    let interface = string::read(rt, words, &mut store)?;
    let mut space = [0u8; FILE_SPACE];
    let firmware = file::read(rt, words.file, &mut space)?;
    let rehearsal = Rehearsal {
        words,
        protocol: interface.protocol,
        firmware,
        pages: store.get(..interface.pages).unwrap_or(&store),
    };
    rehearsal.show(rt)
}

// Reads the words, and rehearses what they say.
fn rehearse(rt: &(impl Env + Files + Print)) -> Result<(), Stop> {
    match words::read(rt)? {
        Some(words) => with_words(rt, words),
        None => Ok(usage::show(rt)?),
    }
}

fn main(rt: HostRuntime) -> io::Result<()> {
    match rehearse(&rt) {
        Ok(()) | Err(Stop::Told) => Ok(()),
        Err(Stop::Unprinted(error)) => Err(error),
    }
}
