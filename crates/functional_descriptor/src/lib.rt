// The DFU functional descriptor, from its bytes: functional_descriptor.rs.
#![tactic(auto)]

ghost use Rattle.std.specs.Prelude.{◌≡◌, ◌<◌, length};
ghost use Rattle.functional_descriptor.specs.Descriptor.{flag, fields_of, descriptor_of, said_fields, said_error};

use ground::{Answer, Report, Version};
use std::fmt;

// What a device says of itself.
#[derive(Clone, Copy, Debug, PartialEq, Eq)]
pub struct FunctionalDescriptor {
    // bitCanDnload
    pub can_download: bool,
    // bitCanUpload
    pub can_upload: bool,
    // bitManifestationTolerant: the device still answers after the manifestation.
    pub manifestation_tolerant: bool,
    // bitWillDetach
    pub will_detach: bool,
    // wDetachTimeOut, in milliseconds
    pub detach_timeout: u16,
    // wTransferSize: the most bytes that a block may have.
    pub transfer_size: u16,
    // bcdDFUVersion: major and minor
    pub dfu_version: Version,
}

// Why a functional descriptor is refused.
#[derive(Clone, Copy, Debug, PartialEq, Eq)]
pub enum Error {
    // Refusal 14: fewer than 9 bytes
    DataTooShort { got: usize },
}

// Whether the attribute bit of a weight is set.
fn has(attributes: u8, weight: u8) -> bool
    requires { 0 < weight }
    ensures { result ≡ flag weight attributes }
{
    attributes / weight % 2 == 1
}

// The fields of nine bytes or more.
fn fields(bytes: &[u8]) -> FunctionalDescriptor
    requires { 8 < length bytes.now }
    ensures { result ≡ fields_of bytes.now }
{
    let attributes = bytes[2];
    FunctionalDescriptor {
        can_download: has(attributes, 1),
        can_upload: has(attributes, 2),
        manifestation_tolerant: has(attributes, 4),
        will_detach: has(attributes, 8),
        detach_timeout: ground::pair_at(bytes, 3),
        transfer_size: ground::pair_at(bytes, 5),
        dfu_version: Version(bytes[8], bytes[7]),
    }
}

impl FunctionalDescriptor {
    // Reads a functional descriptor from a descriptor's bytes: none if they are of another kind, or too few to have one. The length byte is not
    // read, and more bytes than nine are ignored.
    pub fn from_bytes(bytes: &[u8]) -> Option<Result<FunctionalDescriptor, Error>>
        ensures { result ≡ descriptor_of bytes.now }
    {
        let got = bytes.len();
        if got < 2 || bytes[1] != 0x21 {
            return None;
        }
        if got < 9 {
            return Some(Err(Error::DataTooShort { got }));
        }
        Some(Ok(fields(bytes)))
    }
}

// A descriptor's values, in the order of its bytes.
impl Answer for FunctionalDescriptor {
    ghost tells = { said_fields };

    fn said(self) -> Report {
        let version = self.dfu_version;
        Report::of(
            0,
            [
                u64::from(self.can_download),
                u64::from(self.can_upload),
                u64::from(self.manifestation_tolerant),
                u64::from(self.will_detach),
                u64::from(self.detach_timeout),
                u64::from(self.transfer_size),
                u64::from(version.0),
                u64::from(version.1),
            ],
        )
    }
}

impl Answer for Error {
    ghost tells = { said_error };

    fn said(self) -> Report {
        match self {
            Error::DataTooShort { got } => Report::of(14, [got as u64]),
        }
    }
}

impl fmt::Display for Error {
    fn fmt<W: fmt::Write>(&self, f: &mut fmt::Formatter<W>) -> fmt::Result {
        match self {
            Error::DataTooShort { .. } => write!(f, "the descriptor has fewer than 9 bytes"),
        }
    }
}

impl std::error::Error for Error {}
