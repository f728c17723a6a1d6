// States and statuses, a GETSTATUS reply and the judgement of a wait: get_status.rs, and State and Status of lib.rs.
#![tactic(auto)]

ghost use Rattle.std.specs.Prelude.{◌≡◌, nat_eq};
ghost use Rattle.std.specs.Ordering.{on};
ghost use Rattle.std.specs.Cmp.Rules.{comparing};
ghost use Rattle.std.proofs.Common.{rules};
ghost use Rattle.get_status.specs.Names.{state_of, state_byte, status_of, status_byte, settled};
ghost use Rattle.get_status.specs.Reply.{reply_of, strict_reply_of, judged, said_message, said_look, said_error};

use ground::{Answer, Report};
use std::fmt;

// What a device is doing, DFU 1.1's bState.
#[derive(Clone, Copy, Debug)]
pub enum State {
    AppIdle,
    AppDetach,
    DfuIdle,
    DfuDnloadSync,
    DfuDnbusy,
    DfuDnloadIdle,
    DfuManifestSync,
    DfuManifest,
    DfuManifestWaitReset,
    DfuUploadIdle,
    DfuError,
    // Any other byte, as it came.
    Other(u8),
}

// What went wrong last, DFU 1.1's bStatus.
#[derive(Clone, Copy, Debug)]
pub enum Status {
    Ok,
    ErrTarget,
    ErrFile,
    ErrWrite,
    ErrErase,
    ErrCheckErased,
    ErrProg,
    ErrVerify,
    ErrAddress,
    ErrNotdone,
    ErrFirmware,
    ErrVendor,
    ErrUsbr,
    ErrPor,
    ErrUnknown,
    ErrStalledpkt,
    // Any other byte, as it came.
    Other(u8),
}

// A reply to GETSTATUS.
#[derive(Clone, Copy, Debug, PartialEq, Eq)]
pub struct GetStatusMessage {
    pub status: Status,
    // Milliseconds to wait before the next GETSTATUS.
    pub poll_timeout: u32,
    pub state: State,
    pub index: u8,
}

// What a reply means to a wait for a target state that passes a busy one.
#[derive(Clone, Copy, Debug, PartialEq, Eq)]
pub enum Met {
    Reached,
    Busy { poll_timeout: u32 },
}

// Why a reply is refused.
#[derive(Clone, Copy, Debug, PartialEq, Eq)]
pub enum Error {
    // Refusal 6: fewer than 6 bytes.
    ResponseTooShort { got: usize },
    // Refusal 27: a status other than 0. Only the strict reader gives it.
    StatusError { status: Status },
    // Refusal 2: neither the target state of a wait nor its busy one, which was expected.
    InvalidState { got: State, expected: State },
}

impl From<u8> for State {
    ghost from_gives = { λ b named. named ≡ state_of b };

    fn from(b: u8) -> State {
        match b {
            0 => State::AppIdle,
            1 => State::AppDetach,
            2 => State::DfuIdle,
            3 => State::DfuDnloadSync,
            4 => State::DfuDnbusy,
            5 => State::DfuDnloadIdle,
            6 => State::DfuManifestSync,
            7 => State::DfuManifest,
            8 => State::DfuManifestWaitReset,
            9 => State::DfuUploadIdle,
            10 => State::DfuError,
            _ => State::Other(b),
        }
    }
}

impl From<State> for u8 {
    ghost from_gives = { λ state b. b ≡ state_byte state };

    fn from(state: State) -> u8 {
        match state {
            State::AppIdle => 0,
            State::AppDetach => 1,
            State::DfuIdle => 2,
            State::DfuDnloadSync => 3,
            State::DfuDnbusy => 4,
            State::DfuDnloadIdle => 5,
            State::DfuManifestSync => 6,
            State::DfuManifest => 7,
            State::DfuManifestWaitReset => 8,
            State::DfuUploadIdle => 9,
            State::DfuError => 10,
            State::Other(b) => b,
        }
    }
}

// Two states are the same where their bytes are, so no derived `==`: `Other(4)` is taken as 4.
impl PartialEq for State {
    ghost eq = { on state_byte nat_eq };

    ghost laws = { Prim.search (comparing, rules) };

    fn eq(&self, other: &State) -> bool {
        self.byte() == other.byte()
    }
}

impl Eq for State {
    ghost laws = { Prim.search (comparing, rules) };
}

impl State {
    // The name of a byte.
    pub fn from_byte(b: u8) -> State
        ensures { result ≡ state_of b }
    {
        State::from(b)
    }

    // The byte of a name.
    pub fn byte(self) -> u8
        ensures { result ≡ state_byte self }
    {
        u8::from(self)
    }

    // Some devices answer a state that GETSTATUS itself leaves: it is taken as the one that follows.
    fn for_status(self) -> State
        ensures { result ≡ settled self }
    {
        match self {
            State::DfuManifestSync => State::DfuManifest,
            State::DfuDnloadSync => State::DfuDnbusy,
            _ => self,
        }
    }
}

impl From<u8> for Status {
    ghost from_gives = { λ b named. named ≡ status_of b };

    fn from(b: u8) -> Status {
        match b {
            0x00 => Status::Ok,
            0x01 => Status::ErrTarget,
            0x02 => Status::ErrFile,
            0x03 => Status::ErrWrite,
            0x04 => Status::ErrErase,
            0x05 => Status::ErrCheckErased,
            0x06 => Status::ErrProg,
            0x07 => Status::ErrVerify,
            0x08 => Status::ErrAddress,
            0x09 => Status::ErrNotdone,
            0x0a => Status::ErrFirmware,
            0x0b => Status::ErrVendor,
            0x0c => Status::ErrUsbr,
            0x0d => Status::ErrPor,
            0x0e => Status::ErrUnknown,
            0x0f => Status::ErrStalledpkt,
            _ => Status::Other(b),
        }
    }
}

impl From<Status> for u8 {
    ghost from_gives = { λ status b. b ≡ status_byte status };

    fn from(status: Status) -> u8 {
        match status {
            Status::Ok => 0x00,
            Status::ErrTarget => 0x01,
            Status::ErrFile => 0x02,
            Status::ErrWrite => 0x03,
            Status::ErrErase => 0x04,
            Status::ErrCheckErased => 0x05,
            Status::ErrProg => 0x06,
            Status::ErrVerify => 0x07,
            Status::ErrAddress => 0x08,
            Status::ErrNotdone => 0x09,
            Status::ErrFirmware => 0x0a,
            Status::ErrVendor => 0x0b,
            Status::ErrUsbr => 0x0c,
            Status::ErrPor => 0x0d,
            Status::ErrUnknown => 0x0e,
            Status::ErrStalledpkt => 0x0f,
            Status::Other(b) => b,
        }
    }
}

// As for states: the byte decides.
impl PartialEq for Status {
    ghost eq = { on status_byte nat_eq };

    ghost laws = { Prim.search (comparing, rules) };

    fn eq(&self, other: &Status) -> bool {
        self.byte() == other.byte()
    }
}

impl Eq for Status {
    ghost laws = { Prim.search (comparing, rules) };
}

impl Status {
    // The name of a byte.
    pub fn from_byte(b: u8) -> Status
        ensures { result ≡ status_of b }
    {
        Status::from(b)
    }

    // The byte of a name.
    pub fn byte(self) -> u8
        ensures { result ≡ status_byte self }
    {
        u8::from(self)
    }
}

impl GetStatusMessage {
    // Reads a reply. More bytes are ignored.
    pub fn from_bytes(bytes: &[u8]) -> Result<GetStatusMessage, Error>
        ensures { result ≡ reply_of bytes.now }
    {
        let got = bytes.len();
        if got < 6 {
            return Err(Error::ResponseTooShort { got });
        }
        Ok(GetStatusMessage {
            status: Status::from_byte(bytes[0]),
            poll_timeout: ground::triple_at(bytes, 1),
            state: State::from_byte(bytes[4]).for_status(),
            index: bytes[5],
        })
    }

    // Reads a reply whose status must be 0: every one but a session's first, which may report the error that is to be cleared.
    pub fn strict_from_bytes(bytes: &[u8]) -> Result<GetStatusMessage, Error>
        ensures { result ≡ strict_reply_of bytes.now }
    {
        let message = Self::from_bytes(bytes)?;
        let status = message.status;
        if status != Status::Ok {
            return Err(Error::StatusError { status });
        }
        Ok(message)
    }

    // Judges a reply for a wait. The target is tested first, so a wait may have it for its busy state too.
    pub fn judge(self, busy: State, target: State) -> Result<Met, Error>
        ensures { result ≡ judged self busy target }
    {
        let got = self.state;
        if got == target {
            return Ok(Met::Reached);
        }
        if got == busy {
            return Ok(Met::Busy {
                poll_timeout: self.poll_timeout,
            });
        }
        Err(Error::InvalidState {
            got,
            expected: busy,
        })
    }
}

impl Answer for GetStatusMessage {
    ghost tells = { said_message };

    fn said(self) -> Report {
        Report::of(
            0,
            [
                u64::from(self.status.byte()),
                u64::from(self.poll_timeout),
                u64::from(self.state.byte()),
                u64::from(self.index),
            ],
        )
    }
}

impl Answer for Met {
    ghost tells = { said_look };

    fn said(self) -> Report {
        match self {
            Met::Reached => Report::of(0, []),
            Met::Busy { poll_timeout } => Report::of(0, [u64::from(poll_timeout)]),
        }
    }
}

impl Answer for Error {
    ghost tells = { said_error };

    fn said(self) -> Report {
        match self {
            Error::ResponseTooShort { got } => Report::of(6, [got as u64, 6]),
            Error::StatusError { status } => Report::of(27, [u64::from(status.byte())]),
            Error::InvalidState { got, expected } => {
                Report::of(2, [u64::from(got.byte()), u64::from(expected.byte())])
            }
        }
    }
}

impl fmt::Display for Error {
    fn fmt<W: fmt::Write>(&self, f: &mut fmt::Formatter<W>) -> fmt::Result {
        match self {
            Error::ResponseTooShort { .. } => write!(f, "a reply is too short"),
            Error::StatusError { .. } => write!(f, "the device reports an error"),
            Error::InvalidState { .. } => {
                write!(f, "the device is in a state that is not expected")
            }
        }
    }
}

impl std::error::Error for Error {}
