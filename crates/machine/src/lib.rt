// What a session does next, whatever its work: what moves of it, by what it is told. synchronous.rs, with the waits of get_status.rs.
#![tactic(auto)]

mod asks;
mod phases;
mod replies;
mod steps;

use wire::{Command, Request};
use work::{End, Error, Progress, Wait};

// What a session awaits, or how it ended.
#[derive(Clone, Copy, Debug, PartialEq, Eq)]
pub enum Phase {
    // The reply to the first GETSTATUS.
    First,
    // The count of CLRSTATUS.
    Clear,
    // The reply to the second GETSTATUS.
    Second,
    // The count of a command.
    Sent(Command),
    // A pause to end, or the reply to a GETSTATUS in a wait: it carries what it waits for, a form that document 01 names.
    Waiting(Wait),
    // The USB reset.
    Resetting,
    Finished(End),
    Refused(Error),
}

// What moves of a session: the rest is as start fixed it.
#[derive(Clone, Copy, Debug, PartialEq, Eq)]
pub struct Moved {
    pub progress: Progress,
    // What is left of the budget.
    pub left: u64,
    pub phase: Phase,
}

// What the host is asked to do, or told.
#[derive(Clone, Copy, Debug, PartialEq, Eq)]
pub enum Ask {
    Transfer(Request),
    Wait(u32),
    Reset,
    Finished(End),
    Refused(Error),
}
