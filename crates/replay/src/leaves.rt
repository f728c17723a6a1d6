// The cases that are one call: each line is read to its end, and then the call is made and answered.
use crate::store;
use cases::output::Transcript;
use cases::words;
use cases::words::Amount;
use functional_descriptor::FunctionalDescriptor;
use get_status::GetStatusMessage;
use ground::{Answer, Version};
use memory_layout::MemoryLayout;
use protocol::{DfuProtocol, Interface};
use std::io;
use std::io::Write;
use suffix::Suffix;

// `HEX`, the line's last word: its bytes, which are put into a buffer
fn bytes_at<'a>(line: &[u8], at: usize, bytes: &'a mut [u8]) -> Option<&'a [u8]> {
    let read = words::last_hex(line, at, bytes)?;
    Some(words::first(bytes, read.len))
}

// `descriptor HEX`
pub fn descriptor<W: Write>(
    line: &[u8],
    bytes: &mut [u8],
    sink: &mut W,
    out: &mut Transcript<'_>,
) -> io::Result<()> {
    let Some(bytes) = bytes_at(line, 11, bytes) else {
        return out.bad_line(sink);
    };
    out.text(sink, b"descriptor")?;
    match FunctionalDescriptor::from_bytes(bytes) {
        None => out.text(sink, b" none")?,
        Some(answer) => out.said(sink, answer.said())?,
    }
    out.line_end(sink)
}

// `reply HEX`
pub fn reply<W: Write>(
    line: &[u8],
    bytes: &mut [u8],
    sink: &mut W,
    out: &mut Transcript<'_>,
) -> io::Result<()> {
    let Some(bytes) = bytes_at(line, 6, bytes) else {
        return out.bad_line(sink);
    };
    out.text(sink, b"reply")?;
    out.said(sink, GetStatusMessage::strict_from_bytes(bytes).said())?;
    out.line_end(sink)
}

// `detach`
pub fn detach<W: Write>(sink: &mut W, out: &mut Transcript<'_>) -> io::Result<()> {
    let t = protocol::detach();
    out.text(sink, b"detach")?;
    out.values(
        sink,
        &[
            u64::from(t.request_type),
            u64::from(t.request),
            u64::from(t.value),
        ],
    )?;
    out.line_end(sink)
}

// `suffix HEX`: a whole file, read by its suffix
pub fn suffix<W: Write>(
    line: &[u8],
    bytes: &mut [u8],
    sink: &mut W,
    out: &mut Transcript<'_>,
) -> io::Result<()> {
    let Some(file) = bytes_at(line, 7, bytes) else {
        return out.bad_line(sink);
    };
    let answer = Suffix::read(file);
    out.text(sink, b"suffix")?;
    out.said(sink, answer.said())?;
    if answer.is_ok() {
        out.value(sink, Suffix::firmware(file).len() as u64)?;
    }
    out.line_end(sink)
}

// What a case that lends a page store ends with: how many numbers it lends, and how many bytes its text has.
#[derive(Clone, Copy, Debug, PartialEq, Eq)]
struct Lending {
    size: usize,
    len: usize,
}

// `STORE HEX`
fn lending_at(line: &[u8], at: usize, bytes: &mut [u8]) -> Option<Lending> {
    let Amount { value, end } = words::number(line, at, 8192)?;
    let hex = words::last_hex(line, end, bytes)?;
    Some(Lending {
        size: value as usize,
        len: hex.len,
    })
}

// Ends the answer to a call that was lent size numbers and filled n of them.
fn settled<W: Write>(
    store: &mut [u32],
    n: usize,
    size: usize,
    sink: &mut W,
    out: &mut Transcript<'_>,
) -> io::Result<()> {
    if store::settle(store, n, size) {
        return out.line_end(sink);
    }
    out.text(sink, b" store-changed\n")
}

// `layout STORE HEX`. Beside `string`: what each reads, calls and prints differs, and what is alike is `lending_at` and `settled`.
pub fn layout<W: Write>(
    line: &[u8],
    bytes: &mut [u8],
    store: &mut [u32],
    sink: &mut W,
    out: &mut Transcript<'_>,
) -> io::Result<()> {
    match lending_at(line, 7, bytes) {
        Some(Lending { size, len }) if size <= store.len() => {
            let read = MemoryLayout::try_from(words::first(bytes, len), &mut store[..size]);
            layout_words(read, store, sink, out)?;
            settled(
                store,
                read.map_or(0, |layout| layout.pages),
                size,
                sink,
                out,
            )
        }
        _ => out.bad_line(sink),
    }
}

fn layout_words<W: Write>(
    read: Result<MemoryLayout, memory_layout::Error>,
    store: &[u32],
    sink: &mut W,
    out: &mut Transcript<'_>,
) -> io::Result<()> {
    out.text(sink, b"layout")?;
    match read {
        Ok(layout) => {
            out.text(sink, b" ok")?;
            out.pages(sink, store, layout.pages)
        }
        Err(e) => out.refused(sink, e.said()),
    }
}

// `MAJOR MINOR`, and where the next word starts
fn version_at(line: &[u8], at: usize) -> Option<(Version, usize)> {
    let major = words::number(line, at, 255)?;
    let minor = words::number(line, major.end, 255)?;
    let version = Version(
        u8::try_from(major.value).ok()?,
        u8::try_from(minor.value).ok()?,
    );
    Some((version, minor.end))
}

// `MAJOR MINOR STORE HEX`
fn string_at(line: &[u8], at: usize, bytes: &mut [u8]) -> Option<(Version, Lending)> {
    let (version, end) = version_at(line, at)?;
    Some((version, lending_at(line, end, bytes)?))
}

// `string MAJOR MINOR STORE HEX`
pub fn string<W: Write>(
    line: &[u8],
    bytes: &mut [u8],
    store: &mut [u32],
    sink: &mut W,
    out: &mut Transcript<'_>,
) -> io::Result<()> {
    match string_at(line, 7, bytes) {
        Some((version, Lending { size, len })) if size <= store.len() => {
            let read = DfuProtocol::new(words::first(bytes, len), version, &mut store[..size]);
            string_words(read, store, sink, out)?;
            settled(
                store,
                read.map_or(0, |string| string.pages),
                size,
                sink,
                out,
            )
        }
        _ => out.bad_line(sink),
    }
}

fn string_words<W: Write>(
    read: Result<Interface, protocol::Error>,
    store: &[u32],
    sink: &mut W,
    out: &mut Transcript<'_>,
) -> io::Result<()> {
    out.text(sink, b"string")?;
    match read {
        Ok(Interface { protocol, pages }) => match protocol {
            DfuProtocol::Dfu => out.text(sink, b" plain"),
            DfuProtocol::Dfuse { address } => {
                out.text(sink, b" dfuse")?;
                out.value(sink, u64::from(address))?;
                out.pages(sink, store, pages)
            }
        },
        Err(e) => out.refused(sink, e.said()),
    }
}
