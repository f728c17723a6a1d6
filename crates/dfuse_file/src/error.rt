// Why a file is refused.
ghost use Rattle.std.specs.Prelude.{◌≡◌};
ghost use Rattle.dfuse_file.specs.declared.error.Error.TheVariants.{Suffix};

use std::fmt;

// The tests in the order of their numbers, and from 55 on where in the file.
#[derive(Clone, Copy, Debug, PartialEq, Eq)]
pub enum Error {
    // 40 to 43: the suffix's reader refuses the file
    Suffix(suffix::Error),
    // 50: the suffix's DFU version is not 0x011a
    NotDfuse,
    // 51: fewer than 11 bytes stand before the suffix
    ImageTooShort,
    // 52: they don't begin with `DfuSe`
    NoPrefix,
    // 53: the version byte is not 1
    WrongVersion,
    // 54: the image size is the file's length neither with its suffix nor without
    WrongImageSize,
    // 55: fewer than 274 bytes are left for a target's prefix
    TargetTooShort { at: usize },
    // 56: they don't begin with `Target`
    NoTarget { at: usize },
    // 57: the target is larger than what is left
    TargetTooLong { at: usize },
    // 58: fewer than 8 bytes of a target are left for an element's header
    ElementTooShort { at: usize },
    // 59: the element is larger than what is left of its target
    ElementTooLong { at: usize },
    // 60: bytes of a target are left after its last element
    TargetNotFilled { at: usize },
    // 61: bytes are left after the last target
    ImageNotFilled { at: usize },
}

impl From<suffix::Error> for Error {
    ghost from_gives = { λ e r. r ≡ Suffix e };

    fn from(error: suffix::Error) -> Error {
        Error::Suffix(error)
    }
}

impl fmt::Display for Error {
    fn fmt<W: fmt::Write>(&self, f: &mut fmt::Formatter<W>) -> fmt::Result {
        match self {
            Error::Suffix(error) => write!(f, "{error}"),
            Error::NotDfuse => write!(f, "the suffix's DFU version is not 0x011a"),
            Error::ImageTooShort => write!(f, "fewer than 11 bytes stand before the suffix"),
            Error::NoPrefix => write!(f, "the file doesn't begin with DfuSe"),
            Error::WrongVersion => write!(f, "the version byte is not 1"),
            Error::WrongImageSize => write!(f, "the image size is not the file's length"),
            Error::TargetTooShort { at } => write!(f, "at {at} no target's prefix fits in"),
            Error::NoTarget { at } => write!(f, "at {at} no target begins"),
            Error::TargetTooLong { at } => write!(
                f,
                "the target at {at} is larger than what is left"
            ),
            Error::ElementTooShort { at } => write!(f, "at {at} no element's header fits in"),
            Error::ElementTooLong { at } => write!(
                f,
                "the element at {at} is larger than what is left of its target"
            ),
            Error::TargetNotFilled { at } => write!(
                f,
                "at {at} bytes are left after a target's last element"
            ),
            Error::ImageNotFilled { at } => write!(
                f,
                "at {at} bytes are left after the last target"
            ),
        }
    }
}

impl std::error::Error for Error {}
