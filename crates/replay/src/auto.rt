// The words that make many calls.
use crate::case::Case;
use crate::told::Event;
use cases::output::Transcript;
use machine::Phase;
use std::io;
use std::io::Write;
use wire::Request;
use work::Wait;

const MOST_CALLS: u64 = 1000000;

// How many busy replies a wait is to have, and how many it still has.
#[derive(Clone, Copy, Debug, PartialEq, Eq)]
struct Busy {
    each: u64,
    left: u64,
}

// What a phase awaits; an ended session is told nothing.
fn awaited<'a>(phase: Phase, busy: u64) -> Event<'a> {
    match phase {
        Phase::First | Phase::Second => Event::State { poll: 5, state: 2 },
        Phase::Clear => Event::Count(0),
        Phase::Sent(command) => {
            Event::Count(u64::from(Request::Command(command).control().carries))
        }
        Phase::Waiting(
            Wait::Poll {
                busy: passed,
                target,
            },
        ) => Event::State {
            poll: 5,
            state: if 0 < busy {
                passed.byte()
            } else {
                target.byte()
            },
        },
        Phase::Resetting => Event::Reset,
        Phase::Waiting(Wait::Pause { .. }) | Phase::Finished(_) | Phase::Refused(_) => Event::Wait,
    }
}

impl Busy {
    // One call. A count has the busy replies counted anew, and a look takes one of them.
    fn tell(&mut self, case: &mut Case<'_>) {
        let phase = case.session.phase;
        case.tell(awaited(phase, self.left));
        self.left = match phase {
            Phase::Clear | Phase::Sent(_) => self.each,
            Phase::Waiting(Wait::Poll { .. }) => self.left.saturating_sub(1),
            _ => self.left,
        };
    }
}

// `aK`: tells what is awaited up to a finish or a refusal, with the line of each call; `qK`, quiet, with the last one's alone
pub fn auto<W: Write>(
    case: &mut Case<'_>,
    each: u64,
    quiet: bool,
    sink: &mut W,
    out: &mut Transcript<'_>,
) -> io::Result<()> {
    if case.session.asks().is_end() {
        return Ok(());
    }
    let mut busy = Busy { each, left: each };
    for call in 1..=MOST_CALLS {
        busy.tell(case);
        let last = case.is_answered() || call == MOST_CALLS;
        if last || !quiet {
            case.write(sink, out)?;
        }
        if last {
            break;
        }
    }
    Ok(())
}

// The calls of a round, up to the first that is answered by a finish or a refusal.
fn round(case: &mut Case<'_>) {
    let events = [
        Event::Count(0),
        Event::Wait,
        Event::State { poll: 0, state: 5 },
    ];
    for event in events {
        case.tell(event);
        if case.is_answered() {
            return;
        }
    }
}

// `sN`: rounds up to the first call that is answered so, which alone has its line
pub fn rounds<W: Write>(
    case: &mut Case<'_>,
    n: u64,
    sink: &mut W,
    out: &mut Transcript<'_>,
) -> io::Result<()> {
    for _ in 0..n {
        round(case);
        if case.is_answered() {
            return case.write(sink, out);
        }
    }
    Ok(())
}
