// The protocol that a version and an interface string announce, and the detach request: DfuProtocol and detach of lib.rs.
#![tactic(auto)]

ghost use Rattle.std.specs.Prelude.{◌≡◌, ◌<◌, length, IfSome};
ghost use Rattle.std.specs.Option.{option_map_or};
ghost use Rattle.protocol.specs.Interface.{dfuseb, whole, cut, rsplit, place_of, address_of, done, dfuse_of, interface_of, detach_request, said_interface, said_refusal};
ghost use Rattle.protocol.specs.declared.Error.TheVariants.{MemoryLayout};

use ground::{Answer, Report, Version};
use memory_layout::{MAX_TEXT, MemoryLayout};
use std::fmt;

// The protocol in use. DfuSe's pages stand in the store that was lent for them.
#[derive(Clone, Copy, Debug, PartialEq, Eq)]
pub enum DfuProtocol {
    Dfu,
    Dfuse { address: u32 },
}

// Why a version or an interface string is refused.
#[derive(Clone, Copy, Debug, PartialEq, Eq)]
pub enum Error {
    // Refusal 7
    UnknownProtocol,
    // Refusal 20
    TextTooLong,
    // Refusal 8: fewer than two slashes
    InvalidInterfaceString,
    // Refusals 9 to 12, 21, 22
    MemoryLayout(memory_layout::Error),
    // Refusal 13
    InvalidAddress,
}

impl From<memory_layout::Error> for Error {
    ghost from_gives = { λ fault error. error ≡ MemoryLayout fault };

    fn from(fault: memory_layout::Error) -> Error {
        Error::MemoryLayout(fault)
    }
}

// A protocol that was announced, with how many pages the store holds for it.
#[derive(Clone, Copy, Debug, PartialEq, Eq)]
pub struct Interface {
    pub protocol: DfuProtocol,
    pub pages: usize,
}

// A control transfer that carries no data.
#[derive(Clone, Copy, Debug, PartialEq, Eq)]
pub struct UsbWriteControl {
    pub request_type: u8,
    pub request: u8,
    pub value: u16,
}

fn last_slash(s: &[u8]) -> Option<usize>
    ensures place { result ≡ place_of (rsplit s.now) }
    ensures inside { IfSome result (λ i. i < length s.now) }
{
    s.iter().rposition(|byte| *byte == b'/')
}

// What stands before and after the last slash.
#[tactic(auto, using(crate::proofs::Cuts::parts))]
fn cut_at_slash(s: &[u8]) -> Option<(&[u8], &[u8])>
    ensures { rsplit s.now ≡ option_map_or (λ parts. cut parts.0.now parts.1.now) result whole }
{
    let slash = last_slash(s)?;
    Some((&s[..slash], &s[slash + 1..]))
}

// The address at the end of the text before the layout's slash.
#[tactic(auto, unfolding(crate::specs::Interface::address_of))]
fn address_in(rest: &[u8]) -> Result<u32, Error>
    ensures { result ≡ address_of (rsplit rest.now) }
{
    let Some((_, text)) = cut_at_slash(rest) else {
        return Err(Error::InvalidInterfaceString);
    };
    if !ground::starts_with(text, b"0x") {
        return Err(Error::InvalidAddress);
    }
    numeral::hex(&text[2..]).ok_or(Error::InvalidAddress)
}

// A DfuSe interface string. Pages are stored only if the whole of it is good.
#[tactic(auto, unfolding(crate::specs::Interface::dfuse_of))]
fn dfuse(s: &[u8], store: &mut [u32]) -> Result<Interface, Error>
    ensures { done result store.new ≡ dfuse_of (rsplit s.now) store.old }
{
    let Some((rest, layout)) = cut_at_slash(s) else {
        return Err(Error::InvalidInterfaceString);
    };
    match address_in(rest) {
        Ok(address) => {
            let layout = MemoryLayout::try_from(layout, store)?;
            Ok(Interface {
                protocol: DfuProtocol::Dfuse { address },
                pages: layout.pages,
            })
        }
        Err(error) => {
            // A layout's own fault comes first.
            MemoryLayout::check(layout, store.len())?;
            Err(error)
        }
    }
}

impl DfuProtocol {
    // The protocol of a version and an interface string. Plain DFU leaves the string unread, and a refusal the store as it was.
    #[tactic(auto, unfolding(crate::specs::Interface::interface_of))]
    pub fn new(
        interface_string: &[u8],
        version: Version,
        store: &mut [u32],
    ) -> Result<Interface, Error>
        ensures { done result store.new ≡ interface_of interface_string.now version store.old }
    {
        match version {
            Version(1, 0x10) => Ok(Interface {
                protocol: DfuProtocol::Dfu,
                pages: 0,
            }),
            Version(1, 0x1a) if MAX_TEXT < interface_string.len() => Err(Error::TextTooLong),
            Version(1, 0x1a) => dfuse(interface_string, store),
            _ => Err(Error::UnknownProtocol),
        }
    }

    // Whether it is DfuSe.
    pub fn is_dfuse(self) -> bool
        ensures { result ≡ dfuseb self }
    {
        matches!(self, DfuProtocol::Dfuse { .. })
    }
}

// The request that asks a device to leave its application, in 1,000 milliseconds; it stands outside every session.
pub fn detach() -> UsbWriteControl
    ensures { result ≡ detach_request }
{
    UsbWriteControl {
        request_type: 0x21,
        request: 0,
        value: 1000,
    }
}

impl Answer for Interface {
    ghost tells = { said_interface };

    fn said(self) -> Report {
        match self.protocol {
            DfuProtocol::Dfu => Report::of(0, []),
            DfuProtocol::Dfuse { address } => Report::of(
                0,
                [u64::from(address), self.pages as u64],
            ),
        }
    }
}

impl Answer for Error {
    ghost tells = { said_refusal };

    fn said(self) -> Report {
        match self {
            Error::UnknownProtocol => Report::of(7, []),
            Error::TextTooLong => Report::of(20, []),
            Error::InvalidInterfaceString => Report::of(8, []),
            Error::MemoryLayout(fault) => fault.said(),
            Error::InvalidAddress => Report::of(13, []),
        }
    }
}

impl fmt::Display for Error {
    fn fmt<W: fmt::Write>(&self, f: &mut fmt::Formatter<W>) -> fmt::Result {
        match self {
            Error::UnknownProtocol => write!(f, "the DFU version is not known"),
            Error::TextTooLong => write!(f, "the string is longer than 1024 bytes"),
            Error::InvalidInterfaceString => write!(f, "the string has fewer than two slashes"),
            Error::MemoryLayout(fault) => write!(f, "{fault}"),
            Error::InvalidAddress => {
                write!(
                    f,
                    "the address is not 0x and a hexadecimal number below 2^32"
                )
            }
        }
    }
}

impl std::error::Error for Error {}
