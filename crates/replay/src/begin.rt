// `begin`: a start by its numbers alone.
use crate::{starting, transcript};
use cases::output::Transcript;
use cases::words;
use ground::Answer;
use session::Session;
use start::StartError;
use std::io;
use std::io::Write;

// `begin KIND ADDRESS OVERRIDE SIZE LENGTH BUDGET PAGECOUNT`: nothing if the line is no such case
fn started(line: &[u8]) -> Option<Result<Session, StartError>> {
    let target = starting::target_at(line, 6)?;
    let mut values = [0u64; 3];
    let from = words::numbers(
        line,
        target.end,
        &[u64::from(u16::MAX), u64::MAX, u64::MAX],
        &mut values,
    )?;
    let [size, length, budget] = values;
    let pages = words::digits(line, from, u64::from(u32::MAX))?;
    if pages.end != line.len() {
        return None;
    }
    let io = starting::sans_io(target, u16::try_from(size).ok()?, false, false);
    Some(io.begin(target.protocol, length, pages.value as usize, budget))
}

pub fn begin<W: Write>(line: &[u8], sink: &mut W, out: &mut Transcript<'_>) -> io::Result<()> {
    let Some(started) = started(line) else {
        return out.bad_line(sink);
    };
    out.text(sink, b"begin")?;
    match started {
        Ok(session) => transcript::words(session.asks(), b"", 0, sink, out)?,
        Err(e) => out.refused(sink, e.said())?,
    }
    out.line_end(sink)
}
