// What is printed of a file.
use ground::Answer;
use std::io;
use suffix::{Checked, Suffix};

// What a version is called, if it has a name.
fn version_name(version: u16) -> &'static str {
    match version {
        0x0100 => " (DFU 1.0/1.1)",
        0x011a => " (DfuSe)",
        _ => "",
    }
}

// Whom a good file is for, its CRC, and how many of its bytes are firmware.
fn show_good(rt: &impl Print, checked: Checked, all: usize) -> io::Result<()> {
    let Checked { suffix, firmware } = checked;
    let i = suffix.identities;
    let version = i.dfu_version;
    let called = version_name(version);
    println!(rt; "device   0x{:04x}", i.device)?;
    println!(rt; "product  0x{:04x}", i.product)?;
    println!(rt; "vendor   0x{:04x}", i.vendor)?;
    println!(rt; "DFU      0x{version:04x}{called}")?;
    println!(rt; "CRC      0x{:08x}", suffix.crc)?;
    println!(rt; "firmware {firmware} bytes of {all}")
}

// What a file's suffix says, or why the file is refused.
pub fn show(rt: &impl Print, file: &[u8]) -> io::Result<()> {
    match Suffix::check(file) {
        Ok(checked) => show_good(rt, checked, file.len()),
        Err(error) => println!(rt; "refused: {}: {error}", error.said().number),
    }
}
