// The words that the program is started with.
use crate::stop::{Stop, refuse_word};
use console::{LONGEST_WORD, is_there, word};
use std::env::{Env, FillError};
use std::fmt;

// What the options ask for.
#[derive(Clone, Copy, Debug, PartialEq, Eq)]
pub struct Options {
    pub plain: bool,
    pub tolerant: bool,
    pub detach: bool,
    pub list: bool,
    pub help: bool,
    // The address that --address gives.
    pub address: Option<u32>,
    // How many busy replies a wait may have.
    pub busy: u32,
}

// What is to be rehearsed: STRING and FILE by their places among the words.
#[derive(Clone, Copy, Debug, PartialEq, Eq)]
pub struct Words {
    pub options: Options,
    pub string: usize,
    pub size: u16,
    pub file: usize,
}

// An option whose number is the next word.
#[derive(Clone, Copy, Debug, PartialEq, Eq)]
enum Numbered {
    Address,
    Busy,
}

// What the words so far say.
#[derive(Clone, Copy, Debug, PartialEq, Eq)]
struct Begun {
    options: Options,
    awaited: Option<Numbered>,
    string: Option<usize>,
    size: Option<u16>,
    file: Option<usize>,
}

// What is wrong about a word.
#[derive(Clone, Copy, Debug, PartialEq, Eq)]
enum Refusal {
    NoOption,
    NoAddress,
    NoNumber,
    NoSize,
    OneTooMany,
    TooLong,
}

impl fmt::Display for Refusal {
    fn fmt<W: fmt::Write>(&self, f: &mut fmt::Formatter<W>) -> fmt::Result {
        match self {
            Refusal::NoOption => write!(f, "is no option (see --help)"),
            Refusal::NoAddress => write!(f, "is no address from 0 to 0xffffffff"),
            Refusal::NoNumber => write!(f, "is no number from 0 to 4294967295"),
            Refusal::NoSize => write!(f, "is no transfer size from 0 to 65535"),
            Refusal::OneTooMany => write!(f, "is one word too many (see --help)"),
            Refusal::TooLong => write!(f, "begins a word of more than {LONGEST_WORD} bytes"),
        }
    }
}

// A number below 2^32, decimal or hexadecimal.
fn number_of(word: &[u8]) -> Option<u32> {
    match word {
        [b'0', b'x', digits @ ..] => numeral::hex(digits),
        _ => numeral::decimal(word),
    }
}

// A transfer size.
fn size_of(word: &[u8]) -> Option<u16> {
    u16::try_from(numeral::decimal(word)?).ok()
}

impl Begun {
    // What no words say.
    fn new() -> Begun {
        Begun {
            options: Options {
                plain: false,
                tolerant: false,
                detach: false,
                list: false,
                help: false,
                address: None,
                busy: 2,
            },
            awaited: None,
            string: None,
            size: None,
            file: None,
        }
    }

    // An option, or no word that is known.
    fn with_option(mut self, word: &[u8]) -> Result<Begun, Refusal> {
        match word {
            b"--plain" => self.options.plain = true,
            b"--tolerant" => self.options.tolerant = true,
            b"--detach" => self.options.detach = true,
            b"--list" => self.options.list = true,
            b"--help" => self.options.help = true,
            b"--address" => self.awaited = Some(Numbered::Address),
            b"--busy" => self.awaited = Some(Numbered::Busy),
            _ => return Err(Refusal::NoOption),
        }
        Ok(self)
    }

    // The number of an option.
    fn with_number(mut self, option: Numbered, word: &[u8]) -> Result<Begun, Refusal> {
        match option {
            Numbered::Address => {
                self.options.address = Some(number_of(word).ok_or(Refusal::NoAddress)?);
            }
            Numbered::Busy => {
                self.options.busy = numeral::decimal(word).ok_or(Refusal::NoNumber)?;
            }
        }
        self.awaited = None;
        Ok(self)
    }

    // A word that is no option: STRING, SIZE and FILE in this order.
    fn with_placed(mut self, at: usize, word: &[u8]) -> Result<Begun, Refusal> {
        if self.string.is_none() {
            self.string = Some(at);
        } else if self.size.is_none() {
            self.size = Some(size_of(word).ok_or(Refusal::NoSize)?);
        } else if self.file.is_none() {
            self.file = Some(at);
        } else {
            return Err(Refusal::OneTooMany);
        }
        Ok(self)
    }

    // One word more.
    fn with_word(self, at: usize, word: &[u8]) -> Result<Begun, Refusal> {
        match self.awaited {
            Some(option) => self.with_number(option, word),
            None if ground::starts_with(word, b"--") => self.with_option(word),
            None => self.with_placed(at, word),
        }
    }

    // The words, or the name of what is missing at the end.
    fn ended(self) -> Result<Words, &'static str> {
        let Begun {
            options,
            awaited,
            string,
            size,
            file,
        } = self;
        match awaited {
            Some(Numbered::Address) => Err("the number after --address"),
            Some(Numbered::Busy) => Err("the number after --busy"),
            None => Ok(Words {
                options,
                string: string.ok_or("STRING")?,
                size: size.ok_or("SIZE")?,
                file: file.ok_or("FILE")?,
            }),
        }
    }
}

// With the word at a place of the command line, if one stands there.
fn next(rt: &(impl Env + Print), begun: Begun, at: usize) -> Result<Option<Begun>, Stop> {
    let mut space = [0u8; LONGEST_WORD];
    match word(rt, at, &mut space) {
        Ok(word) => match begun.with_word(at, word) {
            Ok(next) => Ok(Some(next)),
            Err(refusal) => refuse_word(rt, word, refusal),
        },
        Err(FillError::NotPresent) => Ok(None),
        // The beginning names the word.
        Err(FillError::TooLong) => {
            let beginning = space.get(..32).unwrap_or(&space);
            refuse_word(rt, beginning, Refusal::TooLong)
        }
    }
}

// Goes through the words up to the first that is refused; the first of all is the program's name.
fn all(rt: &(impl Env + Print)) -> Result<Begun, Stop> {
    let mut begun = Begun::new();
    for at in 1..usize::MAX {
        match next(rt, begun, at)? {
            Some(next) => begun = next,
            None => break,
        }
    }
    Ok(begun)
}

// What the command line asks to rehearse, or nothing if it asks for help: so it does too with no words at all.
#[inline(never)]
pub fn read(rt: &(impl Env + Print)) -> Result<Option<Words>, Stop> {
    if !is_there(rt, 1) {
        return Ok(None);
    }
    let begun = all(rt)?;
    if begun.options.help {
        return Ok(None);
    }
    match begun.ended() {
        Ok(words) => Ok(Some(words)),
        Err(name) => refuse_word(rt, name.as_bytes(), "is missing (see --help)"),
    }
}
