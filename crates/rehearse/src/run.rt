// How far a session is that runs by itself.
use machine::Ask;
use session::{Session, Step};
use wire::{Command, Request};

// A session, what it says, and what it asked for before that.
#[derive(Clone, Copy, Debug, PartialEq, Eq)]
pub struct Run {
    pub session: Session,
    pub says: Ask,
    pub transfers: u64,
    pub erases: u64,
    pub blocks: u64,
}

// A count, with one more where that is so.
fn with_one_if(count: u64, is_one: bool) -> u64 {
    count.saturating_add(u64::from(is_one))
}

impl Run {
    // A session at its start.
    pub fn new(session: Session) -> Run {
        Run {
            session,
            says: session.asks(),
            transfers: 0,
            erases: 0,
            blocks: 0,
        }
    }

    // The run after a step: what the session said before it counts.
    pub fn after(self, step: Step) -> Run {
        let says = self.says;
        let is_transfer = matches!(says, Ask::Transfer(_));
        let is_erase = matches!(says, Ask::Transfer(Request::Command(Command::Erase(_))));
        let is_block = matches!(says, Ask::Transfer(Request::Command(Command::Block { .. })));
        Run {
            session: step.next,
            says: step.says,
            transfers: with_one_if(self.transfers, is_transfer),
            erases: with_one_if(self.erases, is_erase),
            blocks: with_one_if(self.blocks, is_block),
        }
    }

    // The size of the page that is erased next; 0 if there is none.
    pub fn next_page(self, pages: &[u32]) -> u32 {
        pages.get(self.erases as usize).copied().unwrap_or(0)
    }
}
