// Shows what the suffix of a firmware file says, or why the file is refused.
#![tactic(auto)]

mod report;

use console::{FILE_SPACE, LONGEST_FILE, LONGEST_WORD, is_there, read, refuse, word};
use std::env::Env;
use std::fs::Files;
use std::io;
use std::io::Read;

// Whether a file is at its end: then one more read brings nothing and doesn't fail. That is the answer that counts, also after a read that failed.
fn is_ended(file: &mut impl Read) -> bool {
    matches!(file.read(&mut [0u8; 1]), Ok(0))
}

// Reads the file that the first word names into a lent space, and shows what its suffix says.
fn show(rt: &(impl Env + Files + Print), space: &mut [u8; FILE_SPACE]) -> io::Result<()> {
    let mut name = [0u8; LONGEST_WORD];
    let Ok(name) = word(rt, 1, &mut name) else {
        return refuse(
            rt,
            b"FILE",
            format_args!("is a name of more than {LONGEST_WORD} bytes"),
        );
    };
    match read(rt, name, space, |file, _| is_ended(file)) {
        Ok(file) => report::show(rt, file),
        Err(problem) => refuse(rt, name, problem),
    }
}

fn main(rt: HostRuntime) -> io::Result<()> {
    // The first word is the program's own name.
    if !is_there(&rt, 1) || is_there(&rt, 2) {
        println!(rt; "usage: dfu_file FILE, which has at most {LONGEST_FILE} bytes")?;
        return println!(rt; "refused: there has to be one FILE");
    }
    let mut space = [0u8; FILE_SPACE];
    show(&rt, &mut space)
}
