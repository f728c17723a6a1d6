// The kinds of lines, by their first word.
#[derive(Clone, Copy, Debug, PartialEq, Eq)]
pub enum Kind {
    // An empty line or a comment.
    Passed,
    Descriptor,
    Reply,
    Layout,
    String,
    Detach,
    Begin,
    Session,
    Suffix,
    // No kind of case, or a line that is too long.
    Bad,
}

// The most bytes that a line may have.
const LONGEST: usize = 65535;

// What a line is by its first word; what follows the word is left to the case's own reader. The first byte tells most lines apart before a
// word is compared.
pub fn of(line: &[u8]) -> Kind {
    if LONGEST < line.len() {
        return Kind::Bad;
    }
    match line {
        [] | [b'#', ..] => Kind::Passed,
        [b'd', ..] if line.starts_with(b"descriptor ") => Kind::Descriptor,
        b"detach" => Kind::Detach,
        [b'r', ..] if line.starts_with(b"reply ") => Kind::Reply,
        [b'l', ..] if line.starts_with(b"layout ") => Kind::Layout,
        [b'b', ..] if line.starts_with(b"begin ") => Kind::Begin,
        [b's', ..] if line.starts_with(b"string ") => Kind::String,
        [b's', ..] if line.starts_with(b"session ") => Kind::Session,
        [b's', ..] if line.starts_with(b"suffix ") => Kind::Suffix,
        _ => Kind::Bad,
    }
}
