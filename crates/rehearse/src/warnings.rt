// What is worth a second look.
use console::Counted;
use protocol::DfuProtocol;
use std::io;
use work::{Error, Setup};

// An address of the words that is not the string's, or that no one reads.
pub fn address(rt: &impl Print, instead: Option<u32>, protocol: DfuProtocol) -> io::Result<()> {
    match (instead, protocol) {
        (Some(_), DfuProtocol::Dfu) => {
            println!(rt; "warning: plain DFU has no address, so --address does nothing")
        }
        (Some(to), DfuProtocol::Dfuse { address }) if to != address => {
            println!(rt;
                "warning: the string's address is 0x{address:08x}; the pages are counted from 0x{to:08x}"
            )
        }
        _ => Ok(()),
    }
}

// A transfer size that is small, or none.
pub fn size(rt: &impl Print, setup: Setup) -> io::Result<()> {
    match setup.size {
        0 => {
            println!(rt;
                "warning: the transfer size is 0: nothing is sent, and it is finished at once"
            )
        }
        1..6 => {
            println!(rt;
                "warning: GETSTATUS's reply of 6 bytes is longer than a block: fine here, but dfu-core cuts it short or asserts"
            )
        }
        _ => Ok(()),
    }
}

// An empty firmware.
pub fn length(rt: &impl Print, setup: Setup) -> io::Result<()> {
    if setup.length == 0 {
        println!(rt; "warning: the file is empty: nothing is sent, and it is finished at once")?;
    }
    Ok(())
}

// Pages that don't hold the firmware: what was erased is lost.
pub fn pages(rt: &impl Print, error: Error, erases: u64) -> io::Result<()> {
    let why = match error {
        Error::NoSpaceLeft => "the pages run out",
        Error::EraseLimitReached => "the next page ends at or past 2^32,",
        _ => return Ok(()),
    };
    let erases = Counted {
        count: erases,
        one: "erase",
        many: "erases",
    };
    println!(rt; "warning: {why} after {erases}, before any block")
}
