// The words of what the host does in a session.
use cases::words;
use cases::words::Amount;

// What a call tells.
#[derive(Clone, Copy)]
pub enum Event<'a> {
    Count(u64),
    // A reply of these bytes, or one of six with a poll time and a state.
    Reply(&'a [u8]),
    State { poll: u8, state: u8 },
    Wait,
    Reset,
    Failure,
}

// How much of one thing a call lends.
#[derive(Clone, Copy, Debug, PartialEq, Eq)]
pub enum Loan {
    Firmware(usize),
    Pages(usize),
    Command(usize),
}

#[derive(Clone, Copy)]
pub enum Word<'a> {
    Call(Event<'a>),
    // What the next call lends.
    Lend(Loan),
    // What is awaited, with so many busy replies to each wait; quiet with the last call's line alone.
    Auto { each: u64, quiet: bool },
    // Rounds of three calls.
    Rounds(u64),
}

// A word, and where it ends.
#[derive(Clone, Copy)]
pub struct Told<'a> {
    pub word: Word<'a>,
    pub end: usize,
}

// The largest number after a letter.
fn limit(letter: u8) -> u64 {
    match letter {
        b'L' => 1048576,
        b'P' => 8192,
        b'M' => 16,
        b's' => 1000000,
        _ => u64::MAX,
    }
}

// A word of a letter and a number.
fn numbered<'a>(letter: u8, n: u64) -> Option<Word<'a>> {
    match letter {
        b'c' => Some(Word::Call(Event::Count(n))),
        b'L' => Some(Word::Lend(Loan::Firmware(n as usize))),
        b'P' => Some(Word::Lend(Loan::Pages(n as usize))),
        b'M' => Some(Word::Lend(Loan::Command(n as usize))),
        b'a' | b'q' => Some(Word::Auto {
            each: n,
            quiet: letter == b'q',
        }),
        b's' => Some(Word::Rounds(n)),
        _ => None,
    }
}

// `rHEX`, whose bytes are put into a buffer
fn reply_at<'a>(line: &[u8], at: usize, bytes: &'a mut [u8]) -> Option<Told<'a>> {
    let read = words::hex(line, at, bytes)?;
    Some(Told {
        word: Word::Call(Event::Reply(words::first(bytes, read.len))),
        end: read.end,
    })
}

fn number_at<'a>(letter: u8, line: &[u8], at: usize) -> Option<Told<'a>> {
    let Amount { value, end } = words::digits(line, at, limit(letter))?;
    let word = numbered(letter, value)?;
    Some(Told { word, end })
}

// The word after a space.
pub fn next<'a>(line: &[u8], at: usize, bytes: &'a mut [u8]) -> Option<Told<'a>> {
    let first = words::past(line, at, b" ")?;
    let letter = *line.get(first)?;
    let end = first + 1;
    let event = match letter {
        b'w' => Event::Wait,
        b'z' => Event::Reset,
        b'f' => Event::Failure,
        b'r' => return reply_at(line, end, bytes),
        _ => return number_at(letter, line, end),
    };
    Some(Told {
        word: Word::Call(event),
        end,
    })
}

// Whether all that follows a place are words, before one of them does anything. Each has more than a byte, so that the turns are enough.
pub fn are_words(line: &[u8], at: usize, bytes: &mut [u8]) -> bool {
    let mut from = at;
    for _ in 0..line.len() {
        if from == line.len() {
            return true;
        }
        let Some(told) = next(line, from, bytes) else {
            return false;
        };
        from = told.end;
    }
    false
}
