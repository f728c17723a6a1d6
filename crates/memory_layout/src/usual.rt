// The usual text, read in one pass: a piece is digits, a star, digits, a unit and a type. Of any other text nothing is said here.
ghost use Rattle.std.specs.Prelude.{◌≡◌, ◌+◌, ◌≤◌, true, ◌++◌, length, drop};
ghost use Rattle.memory_layout.specs.Usual.{ScannedAt, EndsAt, UsualAt, QuickIn, laid};

use crate::{MAX_TEXT, Run};

// The most pieces that a usual text may have: each but the last takes four bytes at least, its comma with it.
pub(crate) const MAX_RUNS: usize = MAX_TEXT / 4;

// A number, and where its digits stop.
#[derive(Clone, Copy)]
pub struct Scanned {
    pub value: u32,
    pub end: usize,
}

// A usual piece, and where it stops.
#[derive(Clone, Copy)]
pub struct Usual {
    pub run: Run,
    pub end: usize,
}

// A text of usual pieces with room for them: how many pages, and how many runs of pages were kept.
#[derive(Clone, Copy)]
pub struct Quick {
    pub pages: usize,
    pub runs: usize,
}

// The number from a place on, if it is below 2^32.
fn digits(text: &[u8], from: usize) -> Option<Scanned>
    requires { from ≤ length text.now }
    ensures { ScannedAt text.now from result }
{
    let mut value: u32 = 0;
    let mut end = from;
    for byte in &text[from..] {
        // A byte before `0` wraps to far above 9: one test tells a digit.
        let digit = u64::from(*byte).wrapping_sub(48);
        if 9 < digit {
            break;
        }
        value = u32::try_from(u64::from(value) * 10 + digit).ok()?;
        end += 1;
    }
    (from < end).then_some(Scanned { value, end })
}

// Whether a unit and a type stand at a place, and the piece ends after them.
fn is_end(text: &[u8], end: usize) -> bool
    requires { end ≤ length text.now }
    ensures { result ≡ true → EndsAt text.now end }
{
    matches!(&text[end..], [unit, kind] | [unit, kind, b',', ..] if *unit != b',' && *kind != b',')
}

// The piece from a place on, if it is a usual one.
fn piece_at(text: &[u8], at: usize) -> Option<Usual>
    requires { at ≤ length text.now }
    ensures { UsualAt text.now at result }
{
    let count = digits(text, at)?;
    let [b'*', ..] = &text[count.end..] else {
        return None;
    };
    let size = digits(text, count.end + 1)?;
    let end = size.end;
    if !is_end(text, end) {
        return None;
    }
    let run = Run::new(count.value, size.value, text[end], end).ok()?;
    Some(Usual { run, end: end + 2 })
}

// Reads a text of usual pieces, and keeps the run of each. A split at commas first would read each byte twice.
#[tactic(auto, using(crate::proofs::Runs::turns))]
pub(crate) fn read_runs(text: &[u8], room: usize, runs: &mut [Run]) -> Option<Quick>
    requires { (length text.now ≤ 1024) × (length runs.old ≡ 256) }
    ensures { QuickIn text.now room runs.new result }
{
    let mut at = 0;
    let mut pages = 0;
    let mut kept = 0;
    loop {
        let piece = piece_at(text, at)?;
        let count = piece.run.count as usize;
        if room - pages < count {
            return None;
        }
        runs[kept] = piece.run;
        kept += 1;
        pages += count;
        if piece.end == text.len() {
            return Some(Quick { pages, runs: kept });
        }
        at = piece.end + 1;
    }
}

// The pages of runs, at the front of the store.
#[tactic(auto, using(crate::proofs::Laid::within))]
pub(crate) fn lay(runs: &[Run], store: &mut [u32])
    requires { length (laid runs.now) ≤ length store.old }
    ensures { store.new ≡ laid runs.now ++ drop (length (laid runs.now)) store.old }
{
    let mut at = 0;
    for run in runs {
        run.lay(store, at);
        at += run.count as usize;
    }
}
