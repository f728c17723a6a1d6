// What the crates of the core stand on: little-endian numbers, a fixed byte string at a field's start, a version, what an answer says.
#![tactic(auto)]

ghost use Rattle.std.specs.Prelude.{◌≡◌, ◌≤◌, ◌<◌, ◌^◌, length, take};
ghost use Rattle.ground.specs.Bytes.{field, prefix};
ghost use Rattle.ground.specs.Said.{Said, says, report_of, said_result, said_option};

// A major and a minor number, as the Rust's (u8, u8).
#[derive(Clone, Copy, Debug, PartialEq, Eq)]
pub struct Version(pub u8, pub u8);

// Whether a text begins with a fixed byte string: a form that document 01 names, with this name (docs/DECISIONS.md).
pub fn starts_with(s: &[u8], p: &[u8]) -> bool
    ensures { result ≡ prefix p.now s.now }
{
    s.starts_with(p)
}

// The number that the N bytes at a place are, lowest byte first; of bytes past the end nothing is read.
fn number_at<const N: usize>(s: &[u8], at: usize) -> u64
    requires { N ≤ 8 }
    ensures value { result ≡ field at N s.now }
    ensures small { result < 256 ^ N }
{
    let rest = &s[at.min(s.len())..];
    let n = N.min(rest.len());
    let mut bytes = [0u8; 8];
    bytes[..n].copy_from_slice(&rest[..n]);
    u64::from_le_bytes(bytes)
}

// The two bytes at a place as a number. It and the next two differ in the type of their answer, so each is a line of its own.
pub fn pair_at(s: &[u8], at: usize) -> u16
    ensures { result ≡ field at 2 s.now }
{
    number_at::<2>(s, at) as u16
}

// The three bytes at a place as a number.
pub fn triple_at(s: &[u8], at: usize) -> u32
    ensures { result ≡ field at 3 s.now }
{
    number_at::<3>(s, at) as u32
}

// The four bytes at a place as a number.
pub fn word_at(s: &[u8], at: usize) -> u32
    ensures { result ≡ field at 4 s.now }
{
    number_at::<4>(s, at) as u32
}

// What an answer says in document 01's terms: the refusal's number, 0 where it is none, as its definition `Said` has it, and its values, the
// first `count` of eight places: there is no heap, and a slice would have to be lent by every caller.
#[derive(Clone, Copy, Debug, PartialEq, Eq)]
pub struct Report {
    pub number: u64,
    pub count: usize,
    pub values: [u64; 8],
}

impl Report {
    // The number and the values, of which there are eight at most; more are dropped.
    pub fn of<const N: usize>(number: u64, values: [u64; N]) -> Report
        ensures { result ≡ report_of (says number (take 8 values.entry)) }
    {
        let count = N.min(8);
        let mut places = [0u64; 8];
        places[..count].copy_from_slice(&values[..count]);
        Report {
            number,
            count,
            values: places,
        }
    }
}

// What can be said in document 01's terms.
pub trait Answer {
    ghost tells: { Self → Said };

    fn said(self) -> Report
        ensures { result ≡ report_of (tells self) };
}

impl<T: Answer, E: Answer> Answer for Result<T, E> {
    ghost tells = { said_result T.tells E.tells };

    fn said(self) -> Report {
        match self {
            Ok(answer) => answer.said(),
            Err(error) => error.said(),
        }
    }
}

// Where there is nothing to say it is the number 0 alone.
impl<T: Answer> Answer for Option<T> {
    ghost tells = { said_option T.tells };

    fn said(self) -> Report {
        match self {
            Some(answer) => answer.said(),
            None => Report::of(0, []),
        }
    }
}
