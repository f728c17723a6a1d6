// A memory layout's text, to page sizes in a lent store: memory_layout.rs.
#![tactic(auto)]

mod usual;

ghost use Rattle.std.specs.Prelude.{◌≡◌, ◌+◌, ◌^◌, ◌<◌, ◌≤◌, min, ◌==◌, ◌++◌, length, take, drop, replicate, position, IsOk};
ghost use Rattle.memory_layout.specs.Layout.{end_of, factor_of, scaled, starred, piece_of, split, pieces, sizes, max_pages, checked, done, layout_of, said_layout, said_error};

use ground::{Answer, Report};
use std::fmt;
use usual::MAX_RUNS;

// The most pages that a layout may have.
pub const MAX_PAGES: usize = 4096;

// The most bytes that a text may have.
pub const MAX_TEXT: usize = 1024;

// Why a layout is refused. The first four carry offset and length of the text that the Rust quotes.
#[derive(Clone, Copy, Debug, PartialEq, Eq)]
pub enum Error {
    // Refusal 9: a piece without a star
    InvalidPageFormat { at: usize, len: usize },
    // Refusal 10
    ParseErrorPageCount { at: usize, len: usize },
    // Refusal 11
    ParseErrorPageSize { at: usize, len: usize },
    // Refusal 12: a unit that is not `K`, `M`, `B` or a space
    InvalidPrefix { at: usize, len: usize },
    // Refusal 20
    TextTooLong,
    // Refusal 21: a page of 2^32 bytes or more
    PageTooLarge,
    // Refusal 22: more pages than the limit, or than the store holds
    TooManyPages,
}

// A layout that was read: how many pages it has. Their sizes are in the store.
#[derive(Clone, Copy, Debug, PartialEq, Eq)]
pub struct MemoryLayout {
    pub pages: usize,
}

// What one piece says: so many pages of a size.
#[derive(Clone, Copy, Debug, PartialEq, Eq)]
pub struct Run {
    pub count: u32,
    pub size: u32,
}

impl Run {
    // A count and a size times its unit, which stands at a place.
    #[tactic(auto, unfolding(crate::specs::Layout::scaled))]
    fn new(count: u32, size: u32, unit: u8, at: usize) -> Result<Run, Error>
        ensures { result ≡ scaled count size (factor_of unit) at }
    {
        let factor = factor(unit).ok_or(Error::InvalidPrefix { at, len: 1 })?;
        let size = size.checked_mul(factor).ok_or(Error::PageTooLarge)?;
        Ok(Run { count, size })
    }

    // The pages, from a place of the store on.
    fn lay(self, store: &mut [u32], at: usize)
        requires { at + self.count ≤ length store.old }
        ensures { store.new ≡ take at store.old ++ (replicate self.count self.size ++ drop (at + self.count) store.old) }
    {
        store[at..at + self.count as usize].fill(self.size);
    }
}

// The first place of a byte.
fn place(s: &[u8], x: u8) -> Option<usize>
    ensures { result ≡ position (λ byte. byte == x) s.now }
{
    s.iter().position(|byte| *byte == x)
}

// Where a piece that starts at or before a place ends: at the first comma from there on, or with the text.
fn piece_end(text: &[u8], from: usize) -> usize
    requires { from ≤ length text.now }
    ensures { result ≡ end_of 44 text.now from }
{
    let rest = &text[from..];
    from + place(rest, b',').unwrap_or(rest.len())
}

// What a unit multiplies by.
fn factor(unit: u8) -> Option<u32>
    ensures { result ≡ factor_of unit }
{
    match unit {
        b'K' => Some(1024),
        b'M' => Some(1048576),
        b'B' | b' ' => Some(1),
        _ => None,
    }
}

// A piece whose first star stands at a place of it; it starts at an offset of the text.
#[tactic(auto, unfolding(crate::specs::Layout::starred))]
fn read_starred(piece: &[u8], star: usize, at: usize) -> Result<Run, Error>
    requires star_in_bounds { star < length piece.now }
    requires end_fits { at + length piece.now < 2 ^ 64 }
    ensures { result ≡ starred (take star piece.now) (drop (star + 1) piece.now) at }
{
    let count = &piece[..star];
    let rest = &piece[star + 1..];
    let from = at + star + 1;
    let [size @ .., unit, _] = rest else {
        return Err(Error::ParseErrorPageSize {
            at: from,
            len: rest.len(),
        });
    };
    let len = size.len();
    let count = numeral::decimal(count).ok_or(Error::ParseErrorPageCount { at, len: star })?;
    let size = numeral::decimal(size).ok_or(Error::ParseErrorPageSize { at: from, len })?;
    Run::new(count, size, *unit, from + len)
}

// Reads the pieces in order, and is left at the first fault. A loop over pieces round a loop over bytes, left by a label with the
// refusal, is one of the forms that this project keeps (docs/DECISIONS.md).
#[tactic(auto, using(crate::proofs::Scan::ends))]
fn read(text: &[u8], room: usize) -> Result<MemoryLayout, Error>
    ensures { result ≡ pieces room (split text.now) 0 0 }
{
    let mut at = 0;
    let mut pages = 0;
    'pieces: loop {
        let mut star = at;
        'bytes: loop {
            match text.get(star) {
                Some(b'*') => break 'bytes,
                None | Some(b',') => {
                    break 'pieces Err(Error::InvalidPageFormat { at, len: star - at });
                }
                Some(_) => star += 1,
            }
        }
        let end = piece_end(text, star);
        let run = read_starred(&text[at..end], star - at, at)?;
        let count = run.count as usize;
        if room - pages < count {
            break 'pieces Err(Error::TooManyPages);
        }
        pages += count;
        if end == text.len() {
            break 'pieces Ok(MemoryLayout { pages });
        }
        at = end + 1;
    }
}

// A piece that starts at an offset of the text.
#[tactic(auto, using(crate::proofs::Pieces::starless, crate::proofs::Pieces::with_star))]
fn read_piece(piece: &[u8], at: usize) -> Result<Run, Error>
    requires { at + length piece.now < 2 ^ 64 }
    ensures { result ≡ piece_of piece.now at }
{
    let len = piece.len();
    let star = place(piece, b'*').ok_or(Error::InvalidPageFormat { at, len })?;
    read_starred(piece, star, at)
}

// The pages of a text that was read without a fault, at the front of the store.
fn store_pages(text: &[u8], store: &mut [u32])
    requires { IsOk (pieces (min (length store.old) max_pages) (split text.now) 0 0) }
    ensures { store.new ≡ sizes (split text.now) 0 ++ drop (length (sizes (split text.now) 0)) store.old }
{
    let mut at = 0;
    let mut filled = 0;
    for piece in text.split(|byte| *byte == b',') {
        let Ok(run) = read_piece(piece, at) else {
            // A text that was read has no faulty piece.
            return;
        };
        run.lay(store, filled);
        filled += run.count as usize;
        at += piece.len() + 1;
    }
}

impl MemoryLayout {
    // Reads a layout for a store of so many numbers, and stores nothing.
    #[tactic(auto, unfolding(crate::specs::Layout::checked))]
    pub fn check(src: &[u8], store_len: usize) -> Result<MemoryLayout, Error>
        ensures { result ≡ checked store_len src.now }
    {
        if MAX_TEXT < src.len() {
            return Err(Error::TextTooLong);
        }
        read(src, store_len.min(MAX_PAGES))
    }

    // Reads any layout into a store: once to check it, and once more for its pages.
    fn checked_first(src: &[u8], store: &mut [u32]) -> Result<MemoryLayout, Error>
        ensures { done result store.new ≡ layout_of src.now store.old }
    {
        let layout = MemoryLayout::check(src, store.len())?;
        store_pages(src, store);
        Ok(layout)
    }

    // Reads a layout into a store, a usual one in one pass. A refusal leaves the store as it was.
    pub fn try_from(src: &[u8], store: &mut [u32]) -> Result<MemoryLayout, Error>
        ensures { done result store.new ≡ layout_of src.now store.old }
    {
        if MAX_TEXT < src.len() {
            return Err(Error::TextTooLong);
        }
        let mut runs = [Run { count: 0, size: 0 }; MAX_RUNS];
        match usual::read_runs(src, store.len().min(MAX_PAGES), &mut runs) {
            Some(read) => {
                usual::lay(&runs[..read.runs], store);
                Ok(MemoryLayout { pages: read.pages })
            }
            None => MemoryLayout::checked_first(src, store),
        }
    }
}

impl Answer for MemoryLayout {
    ghost tells = { said_layout };

    fn said(self) -> Report {
        Report::of(0, [self.pages as u64])
    }
}

// 9 to 12 quote a part of the text by place and length.
impl Answer for Error {
    ghost tells = { said_error };

    fn said(self) -> Report {
        match self {
            Error::InvalidPageFormat { at, len } => Report::of(9, [at as u64, len as u64]),
            Error::ParseErrorPageCount { at, len } => Report::of(10, [at as u64, len as u64]),
            Error::ParseErrorPageSize { at, len } => Report::of(11, [at as u64, len as u64]),
            Error::InvalidPrefix { at, len } => Report::of(12, [at as u64, len as u64]),
            Error::TextTooLong => Report::of(20, []),
            Error::PageTooLarge => Report::of(21, []),
            Error::TooManyPages => Report::of(22, []),
        }
    }
}

impl fmt::Display for Error {
    fn fmt<W: fmt::Write>(&self, f: &mut fmt::Formatter<W>) -> fmt::Result {
        match self {
            Error::InvalidPageFormat { .. } => write!(f, "a piece of the layout has no star"),
            Error::ParseErrorPageCount { .. } => {
                write!(f, "the count before the star is no number")
            }
            Error::ParseErrorPageSize { .. } => {
                write!(f, "after the star there is no size with a unit and a type")
            }
            Error::InvalidPrefix { .. } => write!(f, "the unit is not K, M, B or a space"),
            Error::TextTooLong => write!(f, "the string is longer than 1024 bytes"),
            Error::PageTooLarge => write!(f, "a page has 2^32 bytes or more"),
            Error::TooManyPages => write!(f, "there are more than 4096 pages"),
        }
    }
}

impl std::error::Error for Error {}
