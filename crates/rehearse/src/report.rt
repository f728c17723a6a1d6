// What is told about a rehearsal.
use console::Counted;
use protocol::DfuProtocol;
use std::io;
use work::Setup;

// So many bytes.
pub fn bytes(count: u64) -> Counted<'static> {
    Counted {
        count,
        one: "byte",
        many: "bytes",
    }
}

// Where the firmware goes: to the address that the words give, if they do.
pub fn target(
    rt: &impl Print,
    protocol: DfuProtocol,
    instead: Option<u32>,
    length: usize,
) -> io::Result<()> {
    let length = bytes(length as u64);
    match protocol {
        DfuProtocol::Dfu => println!(rt; "target: {length} by plain DFU"),
        DfuProtocol::Dfuse { address } => {
            let to = instead.unwrap_or(address);
            println!(rt; "target: {length} by DfuSe to 0x{to:08x}")
        }
    }
}

// A block's number, so many after the first.
fn number(dfuse: bool, after: u64) -> u64 {
    let first = if dfuse { 2 } else { 0 };
    (after % 65536 + first) % 65536
}

// The blocks that were sent, and their numbers.
pub fn blocks(rt: &impl Print, setup: Setup, sent: u64) -> io::Result<()> {
    if sent == 0 {
        return println!(rt; "blocks: none");
    }
    let size = bytes(u64::from(setup.size));
    let first = number(setup.dfuse, 0);
    let last = number(setup.dfuse, sent - 1);
    let empty = number(setup.dfuse, sent);
    print!(rt;
        "blocks: {sent} of at most {size}, numbers {first} to {last}, then the empty block {empty}"
    )?;
    // So many blocks and the empty one have more numbers than there are: only plain DFU sends as many.
    if 65535 < sent {
        print!(rt; "; 65535 is followed by 0")?;
    }
    println!(rt)
}

// The bytes of the first n pages.
fn bytes_of(pages: &[u32], n: usize) -> u64 {
    pages
        .iter()
        .take(n)
        .fold(0u64, |sum, page| sum.saturating_add(u64::from(*page)))
}

// The memory, page by page; every 64th begins a line with its address.
fn picture(rt: &impl Print, start: u32, pages: &[u32], erased: usize) -> io::Result<()> {
    let mut address = u64::from(start);
    for (at, page) in pages.iter().enumerate() {
        if at % 64 == 0 {
            let end = if at == 0 { "" } else { "\n" };
            print!(rt; "{end}    0x{address:08x} ")?;
        }
        print!(rt; "{}", if at < erased { '#' } else { '.' })?;
        address = address.saturating_add(u64::from(*page));
    }
    println!(rt)
}

// The pages that were erased, and a picture of them; plain DFU erases none.
pub fn pages(rt: &impl Print, setup: Setup, pages: &[u32], erased: u64) -> io::Result<()> {
    if !setup.dfuse {
        return Ok(());
    }
    let all = pages.len();
    let erased = erased as usize;
    let first = bytes_of(pages, erased);
    let whole = bytes(bytes_of(pages, all));
    println!(rt; "pages: {erased} of {all} erased, {first} of {whole}")?;
    if all == 0 {
        return Ok(());
    }
    picture(rt, setup.address, pages, erased)
}

// A budget, if one suffices, and the busy replies that it allows for.
pub fn budget(rt: &impl Print, enough: Option<u64>, busy: u64) -> io::Result<()> {
    let replies = Counted {
        count: busy,
        one: "busy reply",
        many: "busy replies",
    };
    match enough {
        Some(n) => println!(rt; "budget: {n} suffices for {replies} in each wait"),
        None => println!(rt; "budget: no 64-bit count suffices for {replies} in each wait"),
    }
}
