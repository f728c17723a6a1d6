// `session`: a download, driven by the words of its line.
use crate::case::{Case, Lent};
use crate::row::Row;
use crate::starting::Target;
use crate::told::Word;
use crate::{auto, row, starting, told, transcript};
use cases::output::Transcript;
use cases::words;
use ground::Answer;
use session::Session;
use start::StartError;
use std::io;
use std::io::Write;

// The words before the pages, and where the pages start.
#[derive(Clone, Copy, Debug, PartialEq, Eq)]
struct Plan {
    target: Target,
    size: u16,
    tolerant: bool,
    detach: bool,
    budget: u64,
    // How many bytes of the firmware and how many command bytes are lent.
    length: usize,
    command: usize,
    end: usize,
}

// `KIND ADDRESS OVERRIDE SIZE TOLERANT DETACH LENGTH BUDGET COMMAND`
fn plan_at(line: &[u8], at: usize) -> Option<Plan> {
    let target = starting::target_at(line, at)?;
    let mut values = [0u64; 6];
    let limits = [u64::from(u16::MAX), 1, 1, 1048576, u64::MAX, 16];
    let end = words::numbers(line, target.end, &limits, &mut values)?;
    let [size, tolerant, detach, length, budget, command] = values;
    Some(Plan {
        target,
        size: u16::try_from(size).ok()?,
        tolerant: tolerant == 1,
        detach: detach == 1,
        budget,
        length: length as usize,
        command: command as usize,
        end,
    })
}

// Where the words of a session start, after its row and a colon: they are read before anything is run.
fn words_at(line: &[u8], row: Row, bytes: &mut [u8]) -> Option<usize> {
    let from = words::past(line, row.end?, b" :")?;
    told::are_words(line, from, bytes).then_some(from)
}

// `session START : TOLD..`
pub fn session<W: Write>(
    line: &[u8],
    bytes: &mut [u8],
    firmware: &[u8],
    pages: &mut [u32],
    sink: &mut W,
    out: &mut Transcript<'_>,
) -> io::Result<()> {
    let Some(plan) = plan_at(line, 8) else {
        return out.bad_line(sink);
    };
    let row = row::row_at(line, plan.end, pages);
    match words_at(line, row, bytes) {
        None => out.bad_line(sink)?,
        Some(from) => with_words(line, from, plan, row.n, bytes, firmware, pages, sink, out)?,
    }
    row::clear(pages, row.n);
    Ok(())
}

// The start, and the words if it is not refused.
fn with_words<W: Write>(
    line: &[u8],
    from: usize,
    plan: Plan,
    n: usize,
    bytes: &mut [u8],
    firmware: &[u8],
    pages: &[u32],
    sink: &mut W,
    out: &mut Transcript<'_>,
) -> io::Result<()> {
    let usual = Lent {
        firmware: plan.length,
        pages: n,
        command: plan.command,
    };
    match start(plan, usual, firmware, pages) {
        Err(e) => refused(e, plan.command, sink, out),
        Ok(session) => {
            let mut case = Case::new(session, firmware, pages, usual, plan.budget);
            case.write(sink, out)?;
            told_words(&mut case, line, from, bytes, sink, out)
        }
    }
}

fn start(plan: Plan, usual: Lent, firmware: &[u8], pages: &[u32]) -> Result<Session, StartError> {
    let io = starting::sans_io(plan.target, plan.size, plan.tolerant, plan.detach);
    io.download(
        plan.target.protocol,
        words::first(firmware, usual.firmware),
        words::first(pages, usual.pages),
        plan.budget,
    )
}

// The one line of a refused start.
fn refused<W: Write>(
    e: StartError,
    command: usize,
    sink: &mut W,
    out: &mut Transcript<'_>,
) -> io::Result<()> {
    out.text(sink, b"session")?;
    out.refused(sink, e.said())?;
    let bytes = [transcript::UNTOUCHED; 16];
    transcript::line_end(0, words::first(&bytes, command), sink, out)?;
    out.line_end(sink)
}

// Goes through the words. Each has more than a byte, so that the turns are enough.
fn told_words<W: Write>(
    case: &mut Case<'_>,
    line: &[u8],
    at: usize,
    bytes: &mut [u8],
    sink: &mut W,
    out: &mut Transcript<'_>,
) -> io::Result<()> {
    let mut from = at;
    for _ in 0..line.len() {
        if from == line.len() {
            return Ok(());
        }
        let Some(told) = told::next(line, from, bytes) else {
            return Ok(());
        };
        from = told.end;
        obey(case, told.word, sink, out)?;
    }
    Ok(())
}

// What a word does.
fn obey<W: Write>(
    case: &mut Case<'_>,
    word: Word<'_>,
    sink: &mut W,
    out: &mut Transcript<'_>,
) -> io::Result<()> {
    match word {
        Word::Call(event) => {
            case.tell(event);
            case.write(sink, out)
        }
        Word::Lend(loan) => {
            case.lend(loan);
            Ok(())
        }
        Word::Auto { each, quiet } => auto::auto(case, each, quiet, sink, out),
        Word::Rounds(n) => auto::rounds(case, n, sink, out),
    }
}
