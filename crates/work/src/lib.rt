// What every work has: its types, the ledger of accepted bytes with the blocks that are read off it, and what is awaited after a command.
#![tactic(auto)]

ghost use Rattle.std.specs.Prelude.{◌≡◌};
ghost use Rattle.work.specs.Work.{block_count, number_at, block_length, staged as stagedAs, entered, wait_after, whole_of, takenb, refusal_of, said_error};

use get_status::{State, Status};
use ground::{Answer, Report};
use std::fmt;
use wire::Command;

// Why a session says no.
#[derive(Clone, Copy, Debug, PartialEq, Eq)]
pub enum Error {
    // Refusal 2
    InvalidState { got: State, expected: State },
    // Refusal 4: the erased position would reach 2^32
    EraseLimitReached,
    // Refusal 5: no page is left to erase
    NoSpaceLeft,
    // Refusal 6
    ResponseTooShort { got: usize },
    // Refusal 23
    BudgetSpent,
    // Refusal 24: an answer of a kind that is not awaited
    NotAwaited,
    // Refusal 25: firmware or page count not as at start, or under 5 command bytes
    NotAsAtStart,
    // Refusal 26: the host says that a transfer or the reset failed
    Failed,
    // Refusal 27: a reply but the first has a status other than 0
    StatusError { status: Status },
    // Refusal 28: a block was not taken whole: the told count, and the block's length
    WrongCount { count: u64, len: u32 },
}

// Which part of the download is next.
#[derive(Clone, Copy, Debug, PartialEq, Eq)]
pub enum Stage {
    Erasing,
    Writing,
    Ending,
}

// What start fixes.
#[derive(Clone, Copy, Debug, PartialEq, Eq)]
pub struct Setup {
    pub dfuse: bool,
    // DfuSe's target address; 0 for plain DFU, as the rules have it: of an Option each reader would have to say that 0 again.
    pub address: u32,
    // The firmware's length.
    pub length: u32,
    // How many pages were lent.
    pub pages: usize,
    // The transfer size.
    pub size: u16,
    pub tolerant: bool,
    pub detach: bool,
}

// What moves.
#[derive(Clone, Copy, Debug, PartialEq, Eq)]
pub struct Progress {
    pub stage: Stage,
    // The position up to which pages were erased, and the index of the next page.
    pub erased: u32,
    pub page: usize,
    // The ledger: how many bytes of the firmware were accepted. A block's number, place and length are read off it.
    pub accepted: u32,
}

// A wait for a target state that passes a busy one: the pause before a look, and the look.
#[derive(Clone, Copy, Debug, PartialEq, Eq)]
pub enum Wait {
    Pause { busy: State, target: State, ms: u32 },
    Poll { busy: State, target: State },
}

// How a session finished.
#[derive(Clone, Copy, Debug, PartialEq, Eq)]
pub enum End {
    Stays,
    Reset,
}

// What is wanted next: a command, with the progress once it is issued; or to end, and how.
#[derive(Clone, Copy, Debug, PartialEq, Eq)]
pub enum Todo {
    Send { command: Command, then: Progress },
    End(End),
}

// How many blocks of at most `size` bytes so many bytes fill; none of size 0.
#[tactic(auto, using(crate::proofs::Fills::block_count_sizeless, crate::proofs::Fills::block_count_ceil))]
pub fn blocks(len: u32, size: u16) -> u64
    ensures { result ≡ block_count len size }
{
    if size == 0 {
        return 0;
    }
    u64::from(len).div_ceil(u64::from(size))
}

impl Setup {
    // The number of the block at a place: from 2 on for DfuSe, from 0 on for plain DFU, 65,535 followed by 0.
    #[tactic(auto, using(crate::proofs::Fills::block_count_bound))]
    pub fn number_at(self, place: u32) -> u16
        ensures { result ≡ number_at self place }
    {
        let first = if self.dfuse { 2 } else { 0 };
        ((first + blocks(place, self.size)) % 65536) as u16
    }

    // How many bytes the block at a place has: the transfer size, or what is left; none at the end.
    pub fn block_length(self, place: u32) -> u32
        ensures { result ≡ block_length self place }
    {
        u32::from(self.size).min(self.length.saturating_sub(place))
    }

    // The wait after a command that was taken with so many bytes, 0 ms first. No wait of a download looks at the bytes.
    pub fn wait_after(self, command: Command, count: u64) -> Wait
        ensures { result ≡ wait_after self command count }
    {
        let (busy, target) = match command {
            Command::Empty { .. } if self.tolerant => (State::DfuManifest, State::DfuIdle),
            Command::Empty { .. } => (State::DfuManifest, State::DfuManifest),
            _ => (State::DfuDnbusy, State::DfuDnloadIdle),
        };
        Wait::Pause {
            busy,
            target,
            ms: 0,
        }
    }
}

impl Progress {
    // Another stage; nothing else moves.
    pub fn staged(self, stage: Stage) -> Progress
        ensures { result ≡ stagedAs stage self }
    {
        Progress { stage, ..self }
    }

    // The ledger's one way to move: so many bytes more were accepted. It never passes the firmware's end.
    pub fn enter(self, setup: Setup, taken: u32) -> Progress
        ensures { result ≡ entered setup self taken }
    {
        Progress {
            accepted: setup.length.min(self.accepted.saturating_add(taken)),
            ..self
        }
    }
}

// The bytes that a command has to be taken with: a block's own.
pub fn whole(command: Command) -> u32
    ensures { result ≡ whole_of command }
{
    match command {
        Command::Block { len, .. } => len,
        Command::Erase(_) | Command::SetAddress(_) | Command::Empty { .. } => 0,
    }
}

// Whether a told count is as it must be: a block's is its length, any other isn't looked at.
pub fn is_taken(command: Command, count: u64) -> bool
    ensures { result ≡ takenb command count }
{
    match command {
        Command::Block { len, .. } => count == u64::from(len),
        Command::Erase(_) | Command::SetAddress(_) | Command::Empty { .. } => true,
    }
}

impl From<get_status::Error> for Error {
    ghost from_gives = { λ refused e. e ≡ refusal_of refused };

    fn from(refused: get_status::Error) -> Error {
        match refused {
            get_status::Error::ResponseTooShort { got } => Error::ResponseTooShort { got },
            get_status::Error::StatusError { status } => Error::StatusError { status },
            get_status::Error::InvalidState { got, expected } => Error::InvalidState {
                got,
                expected,
            },
        }
    }
}

impl Answer for Error {
    ghost tells = { said_error };

    fn said(self) -> Report {
        match self {
            Error::InvalidState { got, expected } => {
                Report::of(2, [u64::from(got.byte()), u64::from(expected.byte())])
            }
            Error::EraseLimitReached => Report::of(4, []),
            Error::NoSpaceLeft => Report::of(5, []),
            Error::ResponseTooShort { got } => Report::of(6, [got as u64, 6]),
            Error::BudgetSpent => Report::of(23, []),
            Error::NotAwaited => Report::of(24, []),
            Error::NotAsAtStart => Report::of(25, []),
            Error::Failed => Report::of(26, []),
            Error::StatusError { status } => Report::of(27, [u64::from(status.byte())]),
            Error::WrongCount { count, len } => Report::of(28, [count, u64::from(len)]),
        }
    }
}

impl fmt::Display for Error {
    fn fmt<W: fmt::Write>(&self, f: &mut fmt::Formatter<W>) -> fmt::Result {
        match self {
            Error::InvalidState { .. } => {
                write!(f, "the device is in a state that is not expected")
            }
            Error::EraseLimitReached => write!(f, "a page to erase ends at or past 2^32"),
            Error::NoSpaceLeft => write!(f, "no page is left to erase"),
            Error::ResponseTooShort { .. } => write!(f, "a reply is too short"),
            Error::BudgetSpent => write!(f, "the budget is spent"),
            Error::NotAwaited => write!(f, "an answer is not awaited"),
            Error::NotAsAtStart => write!(f, "what is lent is not as it was at start"),
            Error::Failed => write!(f, "a transfer failed"),
            Error::StatusError { .. } => write!(f, "the device reports an error"),
            Error::WrongCount { .. } => write!(f, "a block was not taken whole"),
        }
    }
}

impl std::error::Error for Error {}
