// A session under way, and the calls that tell it something.
use crate::told::{Event, Loan};
use crate::transcript;
use cases::output::Transcript;
use cases::words;
use machine::Ask;
use session::{Session, Step};
use std::io;
use std::io::Write;

// How many bytes of the firmware, pages and command bytes a call lends.
#[derive(Clone, Copy, Debug, PartialEq, Eq)]
pub struct Lent {
    pub firmware: usize,
    pub pages: usize,
    pub command: usize,
}

impl Lent {
    // The same with one of them changed.
    fn with(self, loan: Loan) -> Lent {
        match loan {
            Loan::Firmware(firmware) => Lent { firmware, ..self },
            Loan::Pages(pages) => Lent { pages, ..self },
            Loan::Command(command) => Lent { command, ..self },
        }
    }
}

#[derive(Drop)]
pub struct Case<'a> {
    // What is lent, as far as a call lends it.
    firmware: &'a [u8],
    pages: &'a [u32],
    command: [u8; 16],
    // The session after the last call, or the start, and what that said and lent.
    pub session: Session,
    says: Ask,
    lent: Lent,
    // What a call lends if no word says otherwise, and what the next one lends.
    usual: Lent,
    next: Lent,
    budget: u64,
}

impl<'a> Case<'a> {
    pub fn new(
        session: Session,
        firmware: &'a [u8],
        pages: &'a [u32],
        usual: Lent,
        budget: u64,
    ) -> Case<'a> {
        Case {
            firmware,
            pages,
            command: [transcript::UNTOUCHED; 16],
            session,
            says: session.asks(),
            lent: usual,
            usual,
            next: usual,
            budget,
        }
    }

    // Changes what the next call lends.
    pub fn lend(&mut self, loan: Loan) {
        self.next = self.next.with(loan);
    }

    // One call, with just what it lends. It writes nothing.
    pub fn tell(&mut self, event: Event<'_>) {
        let lent = self.next;
        let n = lent.command;
        if 16 < n {
            return;
        }
        let session = self.session;
        let firmware = words::first(self.firmware, lent.firmware);
        let pages = words::first(self.pages, lent.pages);
        let step = called(session, event, firmware, pages, &mut self.command[..n]);
        self.session = step.next;
        self.says = step.says;
        self.lent = lent;
        self.next = self.usual;
    }

    // Whether the last call was answered by a finish or a refusal.
    pub fn is_answered(&self) -> bool {
        self.says.is_end()
    }

    // Writes the line of the last call, or of the start.
    pub fn write<W: Write>(&self, sink: &mut W, out: &mut Transcript<'_>) -> io::Result<()> {
        let step = Step {
            next: self.session,
            says: self.says,
        };
        let spent = self.budget.saturating_sub(self.session.left);
        let firmware = words::first(self.firmware, self.lent.firmware);
        let command = words::first(&self.command, self.lent.command);
        transcript::line(step, spent, firmware, command, sink, out)
    }
}

fn called(
    session: Session,
    event: Event<'_>,
    firmware: &[u8],
    pages: &[u32],
    command: &mut [u8],
) -> Step {
    match event {
        Event::Count(n) => session.told_count(n, firmware, pages, command),
        Event::Reply(bytes) => session.told_reply(bytes, firmware, pages, command),
        Event::State { poll, state } => {
            session.told_reply(&[0, poll, 0, 0, state, 0], firmware, pages, command)
        }
        Event::Wait => session.told_wait(firmware, pages, command),
        Event::Reset => session.told_reset(firmware, pages, command),
        Event::Failure => session.told_failure(firmware, pages, command),
    }
}
