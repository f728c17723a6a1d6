// Lines out of an input, which is read in pieces, the reader's next bytes as far as its contract says which those are (standard input's doesn't).
// A piece is gone through from newline to newline, and what is passed is gathered in the line's buffer.
ghost use Rattle.std.specs.Prelude.{◌≡◌, ◌+◌, ◌<◌, ◌≤◌, length, IfOk, OnErr, MatchResult, ◌==◌, position};
ghost use Rattle.std.specs.Io.KnownBytes.{Keeps, ReadConsumes};
ghost use Rattle.std.specs.Io.{ReadsAtMost};
ghost use Rattle.cases.specs.Output.{filled};
ghost use Rattle.cases.specs.Lines.{outset, left_of, up_to, adds, kept_of, begun_of, Reads, passes, passed_of};

use std::io;
use std::io::Read;

// Where the program stands in its input.
#[derive(Clone, Copy, Debug, PartialEq, Eq)]
pub struct Place {
    // What is left of the piece, from..end.
    pub from: usize,
    pub end: usize,
    // How many bytes the line has so far, and whether that is the whole line: the length counts either way, so an enum would have it twice.
    pub len: usize,
    pub whole: bool,
    // A proved loop has to end, and nothing says that the input does. So its turns are counted down, from a number that
    // no run uses up; the input's end leaves none.
    pub turns: u64,
}

// The place before any input.
pub fn start() -> Place
    ensures { result ≡ outset }
{
    Place {
        from: 0,
        end: 0,
        len: 0,
        whole: false,
        turns: u64::MAX,
    }
}

// Reads the next piece and answers how many bytes it has: none at the end of the input.
fn piece<R: Read>(source: &mut R, input: &mut [u8]) -> io::Result<usize>
    ensures bound { ReadsAtMost result input.new }
    ensures bytes { ReadConsumes (R.remaining source.old) (R.remaining source.new) result input.new }
{
    source.read(input)
}

// What is left of a piece, from..end, as far as the piece goes.
fn left(input: &[u8], from: usize, end: usize) -> &[u8]
    ensures { result.now ≡ left_of input.now from end }
{
    let rest = &input[from.min(input.len())..];
    &rest[..end.saturating_sub(from).min(rest.len())]
}

// Where a newline stands.
fn newline_in(s: &[u8]) -> Option<usize>
    ensures { result ≡ position (λ b. b == 10) s.now }
{
    s.iter().position(|b| *b == b'\n')
}

// Where the next newline of the piece stands, or the piece's end if there is none.
fn newline(input: &[u8], from: usize, end: usize) -> usize
    ensures { result ≡ from + length (up_to (left_of input.now from end)) }
{
    let left = left(input, from, end);
    from + newline_in(left).unwrap_or(left.len())
}

// Puts the bytes from..to of the piece behind the first len of the line, as far as they fit, and answers how many the
// line has then: a line that is too long fills its buffer.
fn gather(input: &[u8], from: usize, to: usize, line: &mut [u8], len: usize) -> usize
    ensures { filled line.new result ≡ adds (filled line.old len) (left_of input.now from to) }
{
    let left = left(input, from, to);
    let n = left.len().min(line.len().saturating_sub(len));
    if 0 < n {
        line[len..len + n].copy_from_slice(&left[..n]);
    }
    len + n
}

// How many bytes the line has before a turn: none after a whole one.
fn kept(place: Place) -> usize
    ensures { result ≡ kept_of place }
{
    if place.whole { 0 } else { place.len }
}

// A place with one turn less, and with an empty line after a whole one.
fn begun(place: Place) -> Place
    requires { 0 < place.turns }
    ensures { result ≡ begun_of place }
{
    Place {
        len: kept(place),
        whole: false,
        turns: place.turns - 1,
        ..place
    }
}

// Goes on to the next newline, or to the piece's end.
fn passed(place: Place, input: &[u8], line: &mut [u8]) -> Place
    ensures { passes result line.new ≡ passed_of place input.now line.old }
{
    let Place { from, end, .. } = place;
    let stop = newline(input, from, end);
    let len = gather(input, from, stop, line, place.len);
    if stop < end {
        return Place {
            from: stop + 1,
            len,
            whole: true,
            ..place
        };
    }
    Place {
        from: end,
        len,
        whole: false,
        ..place
    }
}

// Reads the next piece. At the input's end the line is whole, with no newline; it is empty if there was one.
fn filled<R: Read>(source: &mut R, place: Place, input: &mut [u8]) -> io::Result<Place>
    ensures turns { IfOk result (λ p. p.turns ≤ place.turns) }
    ensures piece { IfOk result (λ p. Reads (R.remaining source.old) (R.remaining source.new) place input.new p) }
    ensures unread { OnErr result (Keeps (R.remaining source.old) (R.remaining source.new)) }
{
    let got = piece(source, input)?;
    if got == 0 {
        return Ok(Place {
            from: 0,
            end: 0,
            whole: true,
            turns: 0,
            ..place
        });
    }
    Ok(Place {
        from: 0,
        end: got,
        whole: false,
        ..place
    })
}

// One turn: a part of the piece, or the next piece. Only the next piece can fail to be read, and then nothing is lost.
pub fn next<R: Read>(
    source: &mut R,
    place: Place,
    input: &mut [u8],
    line: &mut [u8],
) -> io::Result<Place>
    requires { 0 < place.turns }
    ensures turns_lt_turns { IfOk result (λ p. p.turns < place.turns) }
    ensures line_after { place.from < place.end → MatchResult result
        (λ p. passes p line.new ≡ passed_of (begun_of place) input.old line.old) (λ _. ⊥) }
    ensures source_kept { place.from < place.end → source.new ≡ source.old }
    ensures line_kept { place.end ≤ place.from → line.new ≡ line.old }
    ensures piece { place.end ≤ place.from → IfOk result
        (λ p. Reads (R.remaining source.old) (R.remaining source.new) (begun_of place) input.new p) }
    ensures unread { OnErr result (Keeps (R.remaining source.old) (R.remaining source.new)) }
{
    let now = begun(place);
    if now.from < now.end {
        return Ok(passed(now, input, line));
    }
    filled(source, now, input)
}
