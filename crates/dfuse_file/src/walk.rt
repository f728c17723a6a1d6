// One walk over a file: it makes every test in order, and keeps the element and the target with the wanted index on its way.
ghost use Rattle.std.specs.Prelude.{◌≡◌, ◌+◌, ◌-◌, ◌^◌, ◌<◌, ◌≤◌, length, take, drop, IfOk};
ghost use Rattle.dfuse_file.specs.Reading.{whole, dfuse_in, elements_in, targets_in};
ghost use Rattle.dfuse_file.specs.Walking.{fresh, met_of, came_of, target_in, head_in, size_in, walked_of, walked_all, survey_of};

use crate::{Dfuse, Element, Error, Target};
use suffix::{LENGTH, Suffix, word_at};

// What the walk over a whole file ends with: what the file is, and the element and the target with the wanted index, if there are so many.
#[derive(Clone, Copy)]
pub struct Survey {
    pub dfuse: Dfuse,
    pub element: Option<Element>,
    pub target: Option<Target>,
}

// How far the walk has come: how many elements it has met, and of these and the targets the wanted ones.
#[derive(Clone, Copy)]
struct Tally {
    wanted: usize,
    seen: usize,
    element: Option<Element>,
    target: Option<Target>,
}

impl Tally {
    // Nothing met yet.
    fn new(wanted: usize) -> Tally
        ensures { result ≡ fresh wanted }
    {
        Tally {
            wanted,
            seen: 0,
            element: None,
            target: None,
        }
    }

    // One element met: it is kept if it is the wanted one.
    fn meet(self, e: Element) -> Tally
        requires { self.seen < usize.MAX }
        ensures { result ≡ met_of self e }
    {
        let element = if self.seen == self.wanted {
            Some(e)
        } else {
            self.element
        };
        Tally {
            seen: self.seen + 1,
            element,
            ..self
        }
    }

    // One target come to: it is kept if it is the wanted one.
    fn come_to(self, index: u8, u: Target) -> Tally
        ensures { result ≡ came_of self index u }
    {
        let target = if usize::from(index) == self.wanted {
            Some(u)
        } else {
            self.target
        };
        Tally { target, ..self }
    }
}

// What is left of an image or a target: where in the file it begins, and its bytes.
#[derive(Clone, Copy)]
struct Rest<'a> {
    at: usize,
    bytes: &'a [u8],
    ghost ends: { at + length bytes.now < 2 ^ 64 },
}

impl<'a> Rest<'a> {
    // What is left after n bytes more.
    fn after(self, n: usize) -> Rest<'a>
        requires { n ≤ length self.bytes.now }
        ensures at { result.at ≡ self.entry.at + n }
        ensures bytes { result.bytes.now ≡ drop n self.entry.bytes.now }
    {
        let bytes = self.bytes;
        Rest {
            at: self.at + n,
            bytes: &bytes[n..],
        }
    }

    // The first n bytes of it.
    fn up_to(self, n: usize) -> Rest<'a>
        requires { n ≤ length self.bytes.now }
        ensures at { result.at ≡ self.entry.at }
        ensures bytes { result.bytes.now ≡ take n self.entry.bytes.now }
    {
        let bytes = self.bytes;
        Rest {
            at: self.at,
            bytes: &bytes[..n],
        }
    }

    // How many bytes the elements of the target take whose prefix begins here.
    fn target_size(self) -> Result<u32, Error>
        ensures { result ≡ head_in self.entry.at self.entry.bytes.now }
    {
        let at = self.at;
        let Some(left) = self.bytes.len().checked_sub(274) else {
            return Err(Error::TargetTooShort { at });
        };
        if !ground::starts_with(self.bytes, b"Target") {
            return Err(Error::NoTarget { at });
        }
        let size = word_at(self.bytes, 266);
        if left < size as usize {
            return Err(Error::TargetTooLong { at });
        }
        Ok(size)
    }

    // The target whose prefix begins here, of which so many elements stand before its own.
    fn target(self, first: usize) -> Target
        requires { 274 ≤ length self.bytes.now }
        ensures { result ≡ target_in first self.entry.at self.entry.bytes.now }
    {
        Target {
            setting: self.bytes[6],
            named: word_at(self.bytes, 7),
            elements: word_at(self.bytes, 270),
            first,
            place: self.at + 11,
        }
    }

    // How many bytes of data the element has whose header begins here. Not one function with `target_size`: each has errors of its own.
    fn element_size(self) -> Result<u32, Error>
        ensures { result ≡ size_in self.entry.at self.entry.bytes.now }
    {
        let at = self.at;
        let Some(left) = self.bytes.len().checked_sub(8) else {
            return Err(Error::ElementTooShort { at });
        };
        let size = word_at(self.bytes, 4);
        if left < size as usize {
            return Err(Error::ElementTooLong { at });
        }
        Ok(size)
    }
}

// The elements of a target, which begin after its prefix.
fn walk_elements(elements: Rest, index: u8, target: Target, tally: Tally) -> Result<Tally, Error>
    requires { tally.seen ≤ elements.at }
    ensures walked { result ≡ walked_of index target.setting tally elements.entry.at (elements_in target.elements elements.entry.at elements.entry.bytes.now) }
    ensures bounded { IfOk result (λ t. t.seen ≤ elements.entry.at + length elements.entry.bytes.now) }
{
    let mut rest = elements;
    let mut tally = tally;
    for _ in 0..target.elements {
        let size = rest.element_size()?;
        tally = tally.meet(Element {
            target: index,
            setting: target.setting,
            address: word_at(rest.bytes, 0),
            place: rest.at + 8,
            size,
        });
        rest = rest.after(8 + size as usize);
    }
    if !rest.bytes.is_empty() {
        return Err(Error::TargetNotFilled { at: rest.at });
    }
    Ok(tally)
}

// The n targets of an image, which begin after its prefix.
fn walk_targets(targets: Rest, n: u8, wanted: usize) -> Result<Tally, Error>
    ensures { result ≡ walked_all 0 (fresh wanted) targets.entry.at (targets_in n targets.entry.at targets.entry.bytes.now) }
{
    let mut rest = targets;
    let mut tally = Tally::new(wanted);
    for index in 0..n {
        let size = rest.target_size()? as usize;
        let target = rest.target(tally.seen);
        let elements = rest.after(274).up_to(size);
        tally = walk_elements(elements, index, target, tally.come_to(index, target))?;
        rest = rest.after(274 + size);
    }
    if !rest.bytes.is_empty() {
        return Err(Error::ImageNotFilled { at: rest.at });
    }
    Ok(tally)
}

// The image before a suffix.
#[tactic(auto, unfolding(crate::specs::Reading::image_in))]
fn image(image: &[u8], suffix: Suffix, wanted: usize) -> Result<Survey, Error>
    requires { length image.now + 16 < 2 ^ 64 }
    ensures { result ≡ survey_of wanted (whole suffix image.now) }
{
    if suffix.identities.dfu_version != 0x011a {
        return Err(Error::NotDfuse);
    }
    if image.len() < 11 {
        return Err(Error::ImageTooShort);
    }
    if !ground::starts_with(image, b"DfuSe") {
        return Err(Error::NoPrefix);
    }
    if image[5] != 1 {
        return Err(Error::WrongVersion);
    }
    let size = word_at(image, 6) as usize;
    let counted = size == image.len() + LENGTH;
    if size != image.len() && !counted {
        return Err(Error::WrongImageSize);
    }
    let targets = image[10];
    let rest = Rest {
        at: 11,
        bytes: &image[11..],
    };
    let tally = walk_targets(rest, targets, wanted)?;
    Ok(Survey {
        dfuse: Dfuse {
            targets,
            elements: tally.seen,
            counted,
            identities: suffix.identities,
            crc: suffix.crc,
        },
        element: tally.element,
        target: tally.target,
    })
}

// A whole file: the suffix's reader first.
#[tactic(auto, unfolding(crate::specs::Reading::dfuse_in))]
pub fn check(file: &[u8], wanted: usize) -> Result<Survey, Error>
    ensures { result ≡ survey_of wanted (dfuse_in file.now) }
{
    let checked = Suffix::check(file)?;
    image(&file[..checked.firmware], checked.suffix, wanted)
}
