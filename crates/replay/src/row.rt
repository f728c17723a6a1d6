// The pages of a session: a row of numbers, each 0 between two cases.
use cases::words;
use cases::words::Amount;

// How many pages were put into the row, and where their word ends, if it is one.
#[derive(Clone, Copy, Debug, PartialEq, Eq)]
pub struct Row {
    pub n: usize,
    pub end: Option<usize>,
}

// A run of equal pages, and where it ends.
#[derive(Clone, Copy, Debug, PartialEq, Eq)]
struct Run {
    count: usize,
    page: u32,
    end: usize,
}

// Makes the first n numbers 0 again.
pub fn clear(pages: &mut [u32], n: usize) {
    if n <= pages.len() {
        pages[..n].fill(0);
    }
}

// A run of so many pages of a size that was read.
fn run_of(count: usize, size: Amount) -> Option<Run> {
    let page = u32::try_from(size.value).ok()?;
    Some(Run {
        count,
        page,
        end: size.end,
    })
}

// `SIZE` or `COUNTxSIZE`
fn run_at(line: &[u8], at: usize) -> Option<Run> {
    let first = words::digits(line, at, u64::from(u32::MAX))?;
    match words::past(line, first.end, b"x") {
        Some(from) => {
            let size = words::digits(line, from, u64::from(u32::MAX))?;
            run_of(first.value as usize, size)
        }
        None => run_of(1, first),
    }
}

// Puts a run behind the first n pages, if there is room for it, and answers where it ends.
fn joined(line: &[u8], at: usize, pages: &mut [u32], n: usize) -> Row {
    let Some(run) = run_at(line, at) else {
        return Row { n, end: None };
    };
    if pages.len() < n || pages.len() - n < run.count {
        return Row { n, end: None };
    }
    pages[n..n + run.count].fill(run.page);
    Row {
        n: n + run.count,
        end: Some(run.end),
    }
}

// The runs with a comma between them. Each has a byte or more, so that the turns are enough.
fn runs(line: &[u8], at: usize, pages: &mut [u32]) -> Row {
    let mut row = joined(line, at, pages, 0);
    for _ in 0..line.len() {
        let Some(end) = row.end else {
            return row;
        };
        let Some(from) = words::past(line, end, b",") else {
            return row;
        };
        row = joined(line, from, pages, row.n);
    }
    row
}

// `PAGES`: a hyphen for none, or runs.
pub fn row_at(line: &[u8], at: usize, pages: &mut [u32]) -> Row {
    match words::past(line, at, b"-") {
        Some(end) => Row {
            n: 0,
            end: Some(end),
        },
        None => runs(line, at, pages),
    }
}
