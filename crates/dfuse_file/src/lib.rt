// ST's DfuSe file: an image of targets, each with elements, before DFU 1.1's suffix.
#![tactic(auto)]

mod error;
mod walk;

ghost use Rattle.std.specs.Prelude.{◌≡◌, ◌==◌, take, drop, position};
ghost use Rattle.dfuse_file.specs.Reading.{dfuse_in};
ghost use Rattle.dfuse_file.specs.Placed.{read_of, element_at, part_at, target_at, name_in, name_at};

pub use error::Error;
use suffix::Identities;

// What a file is: how many targets and elements it has, whether its image size counts the suffix, whom it is for, and its CRC.
#[derive(Clone, Copy, Debug, PartialEq, Eq)]
pub struct Dfuse {
    pub targets: u8,
    pub elements: usize,
    pub counted: bool,
    pub identities: Identities,
    pub crc: u32,
}

// An element as a part of its file: the index and setting of its target, its address, where its data stands, and how many bytes that has.
#[derive(Clone, Copy, Debug, PartialEq, Eq)]
pub struct Element {
    pub target: u8,
    pub setting: u8,
    pub address: u32,
    pub place: usize,
    pub size: u32,
}

// A target: its setting, its named flag as it stands, how many elements it has and the index of the first over the whole file,
// and where in the file the 255 bytes of its name begin.
#[derive(Clone, Copy, Debug, PartialEq, Eq)]
pub struct Target {
    pub setting: u8,
    pub named: u32,
    pub elements: u32,
    pub first: usize,
    pub place: usize,
}

// A part of a file; of one that isn't all there what is there.
fn cut(file: &[u8], place: usize, size: usize) -> &[u8]
    ensures { result.now ≡ take size (drop place file.now) }
{
    let rest = &file[place.min(file.len())..];
    &rest[..size.min(rest.len())]
}

// Where the first zero stands, if there is one.
fn zero_in(s: &[u8]) -> Option<usize>
    ensures { result ≡ position (λ b. b == 0) s.now }
{
    s.iter().position(|b| *b == 0)
}

// The bytes before the first zero; all if there is none.
fn before_zero(s: &[u8]) -> &[u8]
    ensures { result.now ≡ name_in s.now }
{
    match zero_in(s) {
        Some(n) => &s[..n],
        None => s,
    }
}

// Each call checks the whole file, its CRC included: what it hands out is of a file that is accepted.
impl Dfuse {
    // What a file is, or why it is refused.
    pub fn read(file: &[u8]) -> Result<Dfuse, Error>
        ensures { result ≡ read_of (dfuse_in file.now) }
    {
        Ok(walk::check(file, 0)?.dfuse)
    }

    // The element with an index, counted over the whole file; none of a file that is refused.
    #[tactic(auto, unfolding(crate::specs::Placed::element_at))]
    pub fn element(file: &[u8], i: usize) -> Option<Element>
        ensures { result ≡ element_at i file.now }
    {
        walk::check(file, i).ok()?.element
    }

    // The bytes of the element with an index; where there is none the empty part at the file's start.
    #[tactic(auto, unfolding(crate::specs::Placed::part_at))]
    pub fn part(file: &[u8], i: usize) -> &[u8]
        ensures { result.now ≡ part_at i file.now }
    {
        match Dfuse::element(file, i) {
            Some(e) => cut(file, e.place, e.size as usize),
            None => &file[..0],
        }
    }

    // The target with an index; none of a file that is refused.
    #[tactic(auto, unfolding(crate::specs::Placed::target_at))]
    pub fn target(file: &[u8], i: usize) -> Option<Target>
        ensures { result ≡ target_at i file.now }
    {
        walk::check(file, i).ok()?.target
    }

    // The name of the target with an index; where there is none the empty part at the file's start.
    #[tactic(auto, unfolding(crate::specs::Placed::name_at))]
    pub fn name(file: &[u8], i: usize) -> &[u8]
        ensures { result.now ≡ name_at i file.now }
    {
        match Dfuse::target(file, i) {
            Some(t) => before_zero(cut(file, t.place, 255)),
            None => &file[..0],
        }
    }
}
