// A number in a line of text.
ghost use Rattle.std.specs.Prelude.{Some};
ghost use Rattle.console.specs.Counted.{counted_text};

use std::fmt;

// A number with its noun, in the singular or the plural.
#[derive(Clone, Copy, Debug, PartialEq, Eq)]
pub struct Counted<'a> {
    pub count: u64,
    pub one: &'a str,
    pub many: &'a str,
}

impl fmt::Display for Counted<'_> {
    ghost output = { λ c. Some (counted_text c.count c.one.now c.many.now) };

    fn fmt<W: fmt::Write>(&self, f: &mut fmt::Formatter<W>) -> fmt::Result {
        let count = self.count;
        let noun = if count == 1 { self.one } else { self.many };
        write!(f, "{count} {noun}")
    }
}
