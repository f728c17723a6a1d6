// The words of a line: numbers up to a limit, and HEX. A reader starts at a place of the line, and its answer says
// where it stopped: what has to stand there is its caller's to ask.
ghost use Rattle.std.specs.Prelude.{◌≡◌, ◌<◌, ◌≤◌, take, MatchOption};
ghost use Rattle.cases.specs.Words.{digit_of, pair_of, amount_from, digits_at, number_at, bytes_to, taken, pairs_at, hex_at, last_hex_at, past_at, stored, numbers_at};

// A number, and where it ends.
#[derive(Clone, Copy, Debug, PartialEq, Eq)]
pub struct Amount {
    pub value: u64,
    pub end: usize,
}

// How many bytes a HEX word has, which are the first of a buffer, and where it ends.
#[derive(Clone, Copy, Debug, PartialEq, Eq)]
pub struct Bytes {
    pub len: usize,
    pub end: usize,
}

// The value of a digit, decimal or lower-case hex.
fn digit(b: u8) -> Option<u8>
    ensures { MatchOption result (digit_of b ≡ 16) (λ d. (d ≡ digit_of b) × (d < 16)) }
{
    match b {
        b'0'..=b'9' => Some(b - b'0'),
        b'a'..=b'f' => Some(b - b'a' + 10),
        _ => None,
    }
}

// The value of a decimal digit.
fn decimal_digit(b: u8) -> Option<u8>
    ensures { MatchOption result (9 < digit_of b) (λ d. (d ≡ digit_of b) × (d ≤ 9)) }
{
    digit(b).filter(|d| *d < 10)
}

// A number whose digits stand from a place to another, unless there are none.
fn ended(value: u64, at: usize, end: usize) -> Option<Amount>
    ensures { result ≡ amount_from value at end }
{
    (end != at).then_some(Amount { value, end })
}

// The number that the decimal digits at a place are, up to the first byte that is none.
pub fn digits(line: &[u8], at: usize, limit: u64) -> Option<Amount>
    ensures { result ≡ digits_at line.now at limit }
{
    let mut value: u64 = 0;
    for (n, b) in line.get(at..)?.iter().enumerate() {
        let Some(d) = decimal_digit(*b) else {
            return ended(value, at, at + n);
        };
        value = value.checked_mul(10)?.checked_add(u64::from(d))?;
        if limit < value {
            return None;
        }
    }
    ended(value, at, line.len())
}

// A number with a space after it: its end is where the next word starts.
pub fn number(line: &[u8], at: usize, limit: u64) -> Option<Amount>
    ensures { result ≡ number_at line.now at limit }
{
    let Amount { value, end } = digits(line, at, limit)?;
    if *line.get(end)? != b' ' {
        return None;
    }
    Some(Amount {
        value,
        end: end + 1,
    })
}

// The byte that two hex digits are.
fn pair(a: u8, b: u8) -> Option<u8>
    ensures { MatchOption result (255 < pair_of a b) (λ p. (p ≡ pair_of a b) × (p ≤ 255)) }
{
    Some(digit(a)? * 16 + digit(b)?)
}

// So many bytes, whose pairs end at a place, unless there are none.
fn some(len: usize, end: usize) -> Option<Bytes>
    ensures { result ≡ bytes_to len end }
{
    (len != 0).then_some(Bytes { len, end })
}

// The bytes that the pairs of hex digits at a place are, up to the first two bytes that are no pair.
fn pairs(line: &[u8], at: usize, bytes: &mut [u8]) -> Option<Bytes>
    ensures { taken result bytes.new ≡ pairs_at line.now at bytes.old }
{
    let mut left = line.get(at..)?;
    let mut n = 0;
    while let [a, b, rest @ ..] = left {
        let Some(byte) = pair(*a, *b) else {
            return some(n, at + 2 * n);
        };
        if bytes.len() <= n {
            return None;
        }
        bytes[n] = byte;
        n += 1;
        left = rest;
    }
    some(n, at + 2 * n)
}

// A HEX word: a hyphen for no bytes, or pairs.
pub fn hex(line: &[u8], at: usize, bytes: &mut [u8]) -> Option<Bytes>
    ensures { taken result bytes.new ≡ hex_at line.now at bytes.old }
{
    if *line.get(at)? == b'-' {
        return Some(Bytes {
            len: 0,
            end: at + 1,
        });
    }
    pairs(line, at, bytes)
}

// A HEX word that is the last of its line.
pub fn last_hex(line: &[u8], at: usize, bytes: &mut [u8]) -> Option<Bytes>
    ensures { taken result bytes.new ≡ last_hex_at line.now at bytes.old }
{
    let read = hex(line, at, bytes)?;
    (read.end == line.len()).then_some(read)
}

// The first of several, or all of them if there are fewer.
pub fn first<T>(all: &[T], len: usize) -> &[T]
    ensures { result.now ≡ take len all.now }
{
    &all[..len.min(all.len())]
}

// Where a text ends that has to stand at a place.
pub fn past(line: &[u8], at: usize, text: &[u8]) -> Option<usize>
    ensures { result ≡ past_at line.now at text.now }
{
    if !ground::starts_with(line.get(at..)?, text) {
        return None;
    }
    Some(at + text.len())
}

// Numbers with a space after each, up to a limit for each: where the next word starts.
pub fn numbers(line: &[u8], at: usize, limits: &[u64], values: &mut [u64]) -> Option<usize>
    ensures { stored result values.new ≡ numbers_at line.now at limits.now values.old }
{
    let mut from = at;
    for (i, limit) in limits.iter().enumerate() {
        let Amount { value, end } = number(line, from, *limit)?;
        if values.len() <= i {
            return None;
        }
        values[i] = value;
        from = end;
    }
    Some(from)
}
