// Where a session begins: DfuSansIo of lib.rs, with download as our start.
#![tactic(auto)]

ghost use Rattle.std.specs.Prelude.{◌≡◌, length};
ghost use Rattle.start.specs.Start.{new_io, with_address, target_of, fresh, nothingb, beyondb, overb, manyb, begun_of, begin_of, said_start, said_started};
ghost use Rattle.ground.specs.Said.{report_of};
ghost use Rattle.protocol.specs.Interface.{detach_request};

use functional_descriptor::FunctionalDescriptor;
use ground::{Answer, Report};
use machine::Phase;
use memory_layout::MAX_PAGES;
use protocol::{DfuProtocol, UsbWriteControl};
use session::Session;
use std::fmt;
use work::{End, Progress, Setup, Stage};

// The most blocks of a DfuSe firmware: their numbers are 2 to 65,534, and the empty block's is 65,535.
pub const MAX_BLOCKS: u64 = 65533;

// What sessions are started from.
#[derive(Clone, Copy, Debug, PartialEq, Eq)]
pub struct DfuSansIo {
    pub descriptor: FunctionalDescriptor,
    // An address in place of the interface string's.
    pub override_address: Option<u32>,
}

// Why no session is started.
#[derive(Clone, Copy, Debug, PartialEq, Eq)]
pub enum StartError {
    // Refusal 1: the firmware has 2^32 bytes or more
    OutOfCapabilities,
    // Refusal 22
    TooManyPages,
    // Refusal 5: the target would reach 2^32
    NoSpaceLeft,
    // Refusal 29: DfuSe has no number for the last block
    TooManyBlocks,
    // Refusal 23
    BudgetSpent,
}

// The progress of a session that has requested nothing yet.
fn unstarted(setup: Setup) -> Progress
    ensures { result ≡ fresh setup }
{
    let (stage, erased) = if setup.dfuse {
        (Stage::Erasing, setup.address)
    } else {
        (Stage::Writing, 0)
    };
    Progress {
        stage,
        erased,
        page: 0,
        accepted: 0,
    }
}

// Nothing to send, or no size to send it by.
fn is_nothing(setup: Setup) -> bool
    ensures { result ≡ nothingb setup }
{
    setup.length == 0 || setup.size == 0
}

// A DfuSe target that would reach 2^32.
fn is_beyond(setup: Setup) -> bool
    ensures { result ≡ beyondb setup }
{
    setup.dfuse && setup.address.checked_add(setup.length).is_none()
}

// More pages than DfuSe may have; plain DFU doesn't count them.
pub fn is_over(dfuse: bool, pages: usize) -> bool
    ensures { result ≡ overb dfuse pages }
{
    dfuse && MAX_PAGES < pages
}

// More blocks than DfuSe can number; plain DFU's numbers begin again.
pub fn is_many(dfuse: bool, length: u32, size: u16) -> bool
    ensures { result ≡ manyb dfuse length size }
{
    dfuse && MAX_BLOCKS < work::blocks(length, size)
}

// A session whose lengths were tested: finished at once, refused for its end, its blocks or its budget, or begun.
#[tactic(auto, using(crate::proofs::Paid::unpaid, crate::proofs::Paid::paid), unfolding(crate::specs::Start::begun_of))]
fn begun(setup: Setup, budget: u64) -> Result<Session, StartError>
    ensures { result ≡ begun_of setup budget }
{
    let progress = unstarted(setup);
    if is_nothing(setup) {
        return Ok(Session {
            setup,
            progress,
            left: budget,
            phase: Phase::Finished(End::Stays),
        });
    }
    if is_beyond(setup) {
        return Err(StartError::NoSpaceLeft);
    }
    if is_many(setup.dfuse, setup.length, setup.size) {
        return Err(StartError::TooManyBlocks);
    }
    let left = budget.checked_sub(1).ok_or(StartError::BudgetSpent)?;
    Ok(Session {
        setup,
        progress,
        left,
        phase: Phase::First,
    })
}

impl DfuSansIo {
    pub fn new(descriptor: FunctionalDescriptor) -> DfuSansIo
        ensures { result ≡ new_io descriptor }
    {
        DfuSansIo {
            descriptor,
            override_address: None,
        }
    }

    // The address that a DfuSe download goes to, in place of the interface string's.
    pub fn set_address(self, address: u32) -> DfuSansIo
        ensures { result ≡ with_address self address }
    {
        DfuSansIo {
            override_address: Some(address),
            ..self
        }
    }

    // Where DfuSe writes: the override, or the string's address.
    fn target(self, protocol: DfuProtocol) -> u32
        ensures { result ≡ target_of protocol self.override_address }
    {
        match protocol {
            DfuProtocol::Dfu => 0,
            DfuProtocol::Dfuse { address } => self.override_address.unwrap_or(address),
        }
    }

    // A session for a firmware of so many bytes and so many lent pages, or why there is none.
    #[tactic(auto, unfolding(crate::specs::Start::begin_of))]
    pub fn begin(
        self,
        protocol: DfuProtocol,
        length: u64,
        pages: usize,
        budget: u64,
    ) -> Result<Session, StartError>
        ensures { result ≡ begin_of self protocol length pages budget }
    {
        let length = u32::try_from(length).map_err(|_| StartError::OutOfCapabilities)?;
        let dfuse = protocol.is_dfuse();
        if is_over(dfuse, pages) {
            return Err(StartError::TooManyPages);
        }
        let descriptor = self.descriptor;
        let setup = Setup {
            dfuse,
            address: self.target(protocol),
            length,
            pages,
            size: descriptor.transfer_size,
            tolerant: descriptor.manifestation_tolerant,
            detach: descriptor.will_detach,
        };
        begun(setup, budget)
    }

    // Starts the download of a firmware: its length and the pages' count are all that is looked at.
    pub fn download(
        self,
        protocol: DfuProtocol,
        firmware: &[u8],
        pages: &[u32],
        budget: u64,
    ) -> Result<Session, StartError>
        ensures { result ≡ begin_of self protocol (length firmware.now) (length pages.now) budget }
    {
        self.begin(protocol, firmware.len() as u64, pages.len(), budget)
    }

    // The request that asks a device to leave its application.
    pub fn detach(self) -> UsbWriteControl
        ensures { result ≡ detach_request }
    {
        protocol::detach()
    }
}

impl Answer for StartError {
    ghost tells = { said_start };

    fn said(self) -> Report {
        match self {
            StartError::OutOfCapabilities => Report::of(1, []),
            StartError::TooManyPages => Report::of(22, []),
            StartError::NoSpaceLeft => Report::of(5, []),
            StartError::TooManyBlocks => Report::of(29, []),
            StartError::BudgetSpent => Report::of(23, []),
        }
    }
}

// What a start says: of a session the number 0 alone.
pub fn said(started: Result<Session, StartError>) -> Report
    ensures { result ≡ report_of (said_started started) }
{
    match started {
        Ok(_) => Report::of(0, []),
        Err(error) => error.said(),
    }
}

impl fmt::Display for StartError {
    fn fmt<W: fmt::Write>(&self, f: &mut fmt::Formatter<W>) -> fmt::Result {
        match self {
            StartError::OutOfCapabilities => write!(f, "the firmware has 2^32 bytes or more"),
            StartError::TooManyPages => write!(f, "there are more than 4096 pages"),
            StartError::NoSpaceLeft => write!(f, "the target would end at or past 2^32"),
            StartError::TooManyBlocks => {
                write!(
                    f,
                    "the firmware fills more than 65533 blocks, and DfuSe has no numbers for more: the transfer size is too small for it"
                )
            }
            StartError::BudgetSpent => write!(f, "the budget is spent"),
        }
    }
}

impl std::error::Error for StartError {}
