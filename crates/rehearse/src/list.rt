// The line of each transfer.
use crate::report::bytes;
use machine::Ask;
use std::io;
use wire::{Command, Request};

// A command; one that erases, erases a page of so many bytes.
fn show_command(rt: &impl Print, sent: Command, page: u32) -> io::Result<()> {
    match sent {
        Command::Erase(position) => {
            println!(rt; "erase 0x{position:08x} ({})", bytes(u64::from(page)))
        }
        Command::SetAddress(position) => println!(rt; "set address 0x{position:08x}"),
        Command::Block { number, place, len } => {
            let last = u64::from(place) + u64::from(len.saturating_sub(1));
            println!(rt; "block {number}: bytes {place} to {last}")
        }
        Command::Empty { number } => println!(rt; "block {number}: empty"),
    }
}

// What a session says, where the next page has so many bytes; a pause and an end have no line.
pub fn show(rt: &impl Print, says: Ask, page: u32) -> io::Result<()> {
    match says {
        Ask::Transfer(Request::GetStatus) => println!(rt; "GETSTATUS"),
        Ask::Transfer(Request::ClearStatus) => println!(rt; "CLRSTATUS"),
        Ask::Transfer(Request::Command(sent)) => show_command(rt, sent, page),
        Ask::Reset => println!(rt; "reset"),
        Ask::Wait(_) | Ask::Finished(_) | Ask::Refused(_) => Ok(()),
    }
}
