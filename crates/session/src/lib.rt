// A session by value, driven by told answers: synchronous.rs.
#![tactic(auto)]

mod lending;
mod synchronous;

use machine::{Ask, Phase};
use work::{Progress, Setup};

// A session: it holds its phase, and a waiting phase holds what it waits for.
#[derive(Clone, Copy, Debug, PartialEq, Eq)]
pub struct Session {
    pub setup: Setup,
    pub progress: Progress,
    // What is left of the budget.
    pub left: u64,
    pub phase: Phase,
}

// What a told answer leads to: the next session, and what it says.
#[derive(Clone, Copy, Debug, PartialEq, Eq)]
pub struct Step {
    pub next: Session,
    pub says: Ask,
}
