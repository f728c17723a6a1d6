// What a session says, in words.
use crate::firmware;
use cases::output::Transcript;
use ground::Answer;
use machine::Ask;
use session::Step;
use std::io;
use std::io::Write;
use wire::{Command, Control, Request};
use work::End;

// What a command byte holds that nothing was put into.
pub const UNTOUCHED: u8 = 238;

// The words of what is said: a write's data is given, and the firmware's length.
pub fn words<W: Write>(
    says: Ask,
    data: &[u8],
    length: usize,
    sink: &mut W,
    out: &mut Transcript<'_>,
) -> io::Result<()> {
    match says {
        Ask::Transfer(request) => transfer(request, data, length, sink, out),
        Ask::Wait(ms) => {
            out.text(sink, b" wait")?;
            out.value(sink, u64::from(ms))
        }
        Ask::Reset => out.text(sink, b" reset"),
        Ask::Finished(End::Stays) => out.text(sink, b" finished stays"),
        Ask::Finished(End::Reset) => out.text(sink, b" finished reset"),
        Ask::Refused(e) => out.refused(sink, e.said()),
    }
}

// The type, request and value of a transfer.
fn head(c: Control) -> [u64; 3] {
    [
        u64::from(c.request_type),
        u64::from(c.request),
        u64::from(c.value),
    ]
}

fn transfer<W: Write>(
    request: Request,
    data: &[u8],
    length: usize,
    sink: &mut W,
    out: &mut Transcript<'_>,
) -> io::Result<()> {
    let c = request.control();
    if 0 < c.takes {
        out.text(sink, b" read")?;
        out.values(sink, &head(c))?;
        return out.value(sink, u64::from(c.takes));
    }
    out.text(sink, b" write")?;
    out.values(sink, &head(c))?;
    carried(request, data, length, sink, out)
}

// What a write carries.
fn carried<W: Write>(
    request: Request,
    data: &[u8],
    length: usize,
    sink: &mut W,
    out: &mut Transcript<'_>,
) -> io::Result<()> {
    match request {
        Request::GetStatus | Request::ClearStatus => Ok(()),
        Request::Command(Command::Erase(_) | Command::SetAddress(_)) => {
            out.text(sink, b" command")?;
            out.hex(sink, data)
        }
        Request::Command(Command::Block { place, len, .. }) => {
            part(u64::from(place), u64::from(len), sink, out)
        }
        Request::Command(Command::Empty { .. }) => part(length as u64, 0, sink, out),
    }
}

fn part<W: Write>(place: u64, len: u64, sink: &mut W, out: &mut Transcript<'_>) -> io::Result<()> {
    out.text(sink, b" firmware")?;
    out.values(sink, &[place, len])
}

// Whether the data is what is said to be written. A call that was refused leaves a session whose request may still be to be sent.
fn is_right(says: Ask, data: &[u8]) -> bool {
    match says {
        Ask::Transfer(request) => is_carried(request, data),
        Ask::Refused(_) => true,
        _ => data.is_empty(),
    }
}

// As long as the request says, and of a block the bytes of the rule.
fn is_carried(request: Request, data: &[u8]) -> bool {
    if data.len() != request.control().carries as usize {
        return false;
    }
    match request {
        Request::Command(Command::Block { place, .. }) => {
            firmware::follows(data, place as usize)
        }
        _ => true,
    }
}

// The end of a session's line: the transfers spent, and the command bytes that were lent.
pub fn line_end<W: Write>(
    spent: u64,
    command: &[u8],
    sink: &mut W,
    out: &mut Transcript<'_>,
) -> io::Result<()> {
    out.text(sink, b" |")?;
    out.value(sink, spent)?;
    out.hex(sink, command)
}

// The line of a step whose call was lent a firmware and command bytes.
pub fn line<W: Write>(
    step: Step,
    spent: u64,
    firmware: &[u8],
    command: &[u8],
    sink: &mut W,
    out: &mut Transcript<'_>,
) -> io::Result<()> {
    let session = step.next;
    let data = session.data(firmware, command);
    out.text(sink, b"session")?;
    words(step.says, data, firmware.len(), sink, out)?;
    line_end(spent, command, sink, out)?;
    if is_right(step.says, data) {
        return out.line_end(sink);
    }
    out.text(sink, b" wrong-data\n")
}
