// The DFU suffix: the last 16 bytes of a file say whom the firmware before them is for, and end with a CRC over all before it.
#![tactic(auto)]

ghost use Rattle.std.specs.Prelude.{◌≡◌};
ghost use Rattle.suffix.specs.Suffix.{identities_of, suffix_of, firmware_of, checked_of, said_suffix, said_error};

pub use ground::word_at;
use ground::{Answer, Report};
use std::fmt;

// How many bytes a suffix has; its length byte says so too.
pub const LENGTH: usize = 16;

// Whom a file is for.
#[derive(Clone, Copy, Debug, PartialEq, Eq)]
pub struct Identities {
    // bcdDevice
    pub device: u16,
    // idProduct
    pub product: u16,
    // idVendor
    pub vendor: u16,
    // bcdDFU: 0x0100, and 0x011a for DfuSe
    pub dfu_version: u16,
}

// What a file's suffix says.
#[derive(Clone, Copy, Debug, PartialEq, Eq)]
pub struct Suffix {
    pub identities: Identities,
    pub crc: u32,
}

// A file's suffix, and how many of its first bytes are firmware.
#[derive(Clone, Copy, Debug, PartialEq, Eq)]
pub struct Checked {
    pub suffix: Suffix,
    pub firmware: usize,
}

// Why a file is refused.
#[derive(Clone, Copy, Debug, PartialEq, Eq)]
pub enum Error {
    // 40: fewer than 16 bytes
    FileTooShort,
    // 41: `UFD` is not in its place
    NoSignature,
    // 42: the length byte is not 16
    WrongLength,
    // 43: the CRC is not that of the bytes before it
    WrongCrc,
}

impl Identities {
    // The identities of the 16 bytes of a suffix.
    fn of(suffix: &[u8]) -> Identities
        ensures { result ≡ identities_of suffix.now }
    {
        Identities {
            device: ground::pair_at(suffix, 0),
            product: ground::pair_at(suffix, 2),
            vendor: ground::pair_at(suffix, 4),
            dfu_version: ground::pair_at(suffix, 6),
        }
    }
}

impl Suffix {
    // Reads a file's suffix: the tests stand in the order of their refusals.
    #[tactic(auto, unfolding(crate::specs::Suffix::suffix_of))]
    pub fn read(file: &[u8]) -> Result<Suffix, Error>
        ensures { result ≡ suffix_of file.now }
    {
        let Some((_, suffix)) = file.split_last_chunk::<LENGTH>() else {
            return Err(Error::FileTooShort);
        };
        if !ground::starts_with(&suffix[8..], b"UFD") {
            return Err(Error::NoSignature);
        }
        if usize::from(suffix[11]) != LENGTH {
            return Err(Error::WrongLength);
        }
        let crc = word_at(suffix, 12);
        if crc != crc32::of(&file[..file.len() - 4]) {
            return Err(Error::WrongCrc);
        }
        Ok(Suffix {
            identities: Identities::of(suffix),
            crc,
        })
    }

    // Suffix and firmware at once: the CRC, which takes nearly all the time, is computed once for both.
    #[tactic(auto, using(crate::proofs::Tested::read_long))]
    pub fn check(file: &[u8]) -> Result<Checked, Error>
        ensures { result ≡ checked_of file.now }
    {
        let suffix = Suffix::read(file)?;
        Ok(Checked {
            suffix,
            firmware: file.len() - LENGTH,
        })
    }

    // The firmware part of a file; of a file that is refused the empty part at its start.
    pub fn firmware(file: &[u8]) -> &[u8]
        ensures { result.now ≡ firmware_of file.now }
    {
        match Suffix::check(file) {
            Ok(checked) => &file[..checked.firmware],
            Err(_) => &file[..0],
        }
    }
}

// A suffix's values.
impl Answer for Suffix {
    ghost tells = { said_suffix };

    fn said(self) -> Report {
        let i = self.identities;
        Report::of(
            0,
            [
                u64::from(i.device),
                u64::from(i.product),
                u64::from(i.vendor),
                u64::from(i.dfu_version),
                u64::from(self.crc),
            ],
        )
    }
}

impl Answer for Error {
    ghost tells = { said_error };

    fn said(self) -> Report {
        let number = match self {
            Error::FileTooShort => 40,
            Error::NoSignature => 41,
            Error::WrongLength => 42,
            Error::WrongCrc => 43,
        };
        Report::of(number, [])
    }
}

impl fmt::Display for Error {
    fn fmt<W: fmt::Write>(&self, f: &mut fmt::Formatter<W>) -> fmt::Result {
        let words = match self {
            Error::FileTooShort => "the file has fewer than 16 bytes, so no suffix",
            Error::NoSignature => "the file has no suffix: UFD is not in its place",
            Error::WrongLength => "the suffix says another length than 16",
            Error::WrongCrc => "the CRC is not that of the bytes before it: the file is damaged",
        };
        f.write_str(words)
    }
}

impl std::error::Error for Error {}
