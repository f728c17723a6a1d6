// The transcript: bytes are gathered in a lent buffer, which is written out to a sink when it is full and at the end. Each call's contract is
// one relation, `Tells`: what is held then, or how far the text had come when the sink failed, and that no byte is lost. By `lent` the
// buffer stays the one that was lent, so that its owner knows what it holds afterwards.
ghost use Rattle.std.specs.Prelude.{◌≡◌, [], ◌∷◌, ◌<◌, ◌≤◌, length, take, codes, IsOk, OnOk, OnErr};
ghost use Rattle.std.specs.Io.KnownBytes.{Appends};
ghost use Rattle.cases.specs.Output.{Tells, filled, value_text, values_text, pages_text, counted_of, refused_text, said_text, hex_digit, pair_text, pairs_text, hex_text};

use ground::Report;
use std::io;
use std::io::Write;

// What was told and is not written out yet: the first `held` bytes of a lent buffer. The sink comes with each call: of a struct of two
// `&mut` the checker lent one field at a time (tried).
#[derive(Drop)]
pub struct Transcript<'a> {
    pub bytes: &'a mut [u8],
    pub held: usize,
}

// Writes out the first `at` bytes of a buffer, which may be lent by `&` alone.
pub fn flush<W: Write>(sink: &mut W, out: &[u8], at: usize) -> io::Result<()>
    ensures written { at ≤ length out.now → OnOk result (Appends (W.contents sink.old) (W.contents sink.new) (take at out.now)) }
    ensures beyond { length out.now < at → IsOk result }
{
    if at <= out.len() {
        sink.write_all(&out[..at])?;
    }
    Ok(())
}

impl<'a> Transcript<'a> {
    // Writes out what the buffer holds.
    pub fn flush<W: Write>(&self, sink: &mut W) -> io::Result<()>
        ensures written { self.now.held ≤ length self.now.bytes.now → OnOk result
            (Appends (W.contents sink.old) (W.contents sink.new) (take self.now.held self.now.bytes.now)) }
        ensures beyond { length self.now.bytes.now < self.now.held → IsOk result }
    {
        flush(sink, self.bytes, self.held)
    }

    // One byte; a full buffer is written out first.
    pub fn byte<W: Write>(&mut self, sink: &mut W, b: u8) -> io::Result<()>
        ensures told { Tells (W.contents sink.old) (filled self.old.bytes.now self.old.held) (W.contents sink.new) (filled self.new.bytes.now self.new.held) (b ∷ []) result }
        ensures lent { self.new.bytes.ghost_name ≡ self.old.bytes.ghost_name }
        ensures kept { OnErr result (filled self.new.bytes.now self.new.held ≡ filled self.old.bytes.now self.old.held) }
    {
        if self.held < self.bytes.len() {
            self.bytes[self.held] = b;
            self.held += 1;
            return Ok(());
        }
        self.flush(sink)?;
        self.held = 0;
        if 0 < self.bytes.len() {
            self.bytes[0] = b;
            self.held = 1;
        }
        Ok(())
    }

    // The bytes of a text.
    pub fn text<W: Write>(&mut self, sink: &mut W, s: &[u8]) -> io::Result<()>
        ensures told { Tells (W.contents sink.old) (filled self.old.bytes.now self.old.held) (W.contents sink.new) (filled self.new.bytes.now self.new.held) s.now result }
        ensures lent { self.new.bytes.ghost_name ≡ self.old.bytes.ghost_name }
    {
        for b in s {
            self.byte(sink, *b)?;
        }
        Ok(())
    }

    // A word that is a number: a space, and the decimal digits with no leading zeros.
    pub fn value<W: Write>(&mut self, sink: &mut W, x: u64) -> io::Result<()>
        ensures told { Tells (W.contents sink.old) (filled self.old.bytes.now self.old.held) (W.contents sink.new) (filled self.new.bytes.now self.new.held) (value_text x) result }
        ensures lent { self.new.bytes.ghost_name ≡ self.old.bytes.ghost_name }
    {
        let mut digits = itoa::Buffer::new();
        self.byte(sink, b' ')?;
        self.text(sink, digits.format(x).as_bytes())
    }

    // A word for each number.
    pub fn values<W: Write>(&mut self, sink: &mut W, xs: &[u64]) -> io::Result<()>
        ensures told { Tells (W.contents sink.old) (filled self.old.bytes.now self.old.held) (W.contents sink.new) (filled self.new.bytes.now self.new.held) (values_text xs.now) result }
        ensures lent { self.new.bytes.ghost_name ≡ self.old.bytes.ghost_name }
    {
        for x in xs {
            self.value(sink, *x)?;
        }
        Ok(())
    }

    // How many pages there are, and each of them. Not by `values`: these are numbers of 32 bits, and a bound for both would need a law of its own.
    pub fn pages<W: Write>(&mut self, sink: &mut W, store: &[u32], n: usize) -> io::Result<()>
        ensures told { Tells (W.contents sink.old) (filled self.old.bytes.now self.old.held) (W.contents sink.new) (filled self.new.bytes.now self.new.held) (pages_text store.now n) result }
        ensures lent { self.new.bytes.ghost_name ≡ self.old.bytes.ghost_name }
    {
        self.value(sink, n as u64)?;
        for page in &store[..n.min(store.len())] {
            self.value(sink, u64::from(*page))?;
        }
        Ok(())
    }

    // The values of an answer.
    fn counted<W: Write>(&mut self, sink: &mut W, said: Report) -> io::Result<()>
        ensures told { Tells (W.contents sink.old) (filled self.old.bytes.now self.old.held) (W.contents sink.new) (filled self.new.bytes.now self.new.held) (values_text (counted_of said)) result }
        ensures lent { self.new.bytes.ghost_name ≡ self.old.bytes.ghost_name }
    {
        let places = said.values;
        self.values(sink, &places[..said.count.min(8)])
    }

    // The words of a refusal.
    pub fn refused<W: Write>(&mut self, sink: &mut W, said: Report) -> io::Result<()>
        ensures told { Tells (W.contents sink.old) (filled self.old.bytes.now self.old.held) (W.contents sink.new) (filled self.new.bytes.now self.new.held) (refused_text said) result }
        ensures lent { self.new.bytes.ghost_name ≡ self.old.bytes.ghost_name }
    {
        self.text(sink, b" refused")?;
        self.value(sink, said.number)?;
        self.counted(sink, said)
    }

    // The words of an answer: a refusal's, or the values alone.
    pub fn said<W: Write>(&mut self, sink: &mut W, said: Report) -> io::Result<()>
        ensures told { Tells (W.contents sink.old) (filled self.old.bytes.now self.old.held) (W.contents sink.new) (filled self.new.bytes.now self.new.held) (said_text said) result }
        ensures lent { self.new.bytes.ghost_name ≡ self.old.bytes.ghost_name }
    {
        if said.number == 0 {
            return self.counted(sink, said);
        }
        self.refused(sink, said)
    }

    // The two digits of a byte.
    fn pair<W: Write>(&mut self, sink: &mut W, b: u8) -> io::Result<()>
        ensures told { Tells (W.contents sink.old) (filled self.old.bytes.now self.old.held) (W.contents sink.new) (filled self.new.bytes.now self.new.held) (pair_text b) result }
        ensures lent { self.new.bytes.ghost_name ≡ self.old.bytes.ghost_name }
    {
        self.text(sink, &[hex_digit(b / 16), hex_digit(b % 16)])
    }

    // The pairs of the bytes.
    fn pairs<W: Write>(&mut self, sink: &mut W, bytes: &[u8]) -> io::Result<()>
        ensures told { Tells (W.contents sink.old) (filled self.old.bytes.now self.old.held) (W.contents sink.new) (filled self.new.bytes.now self.new.held) (pairs_text bytes.now) result }
        ensures lent { self.new.bytes.ghost_name ≡ self.old.bytes.ghost_name }
    {
        for b in bytes {
            self.pair(sink, *b)?;
        }
        Ok(())
    }

    // A word that is HEX: a space, and the pairs of the bytes, or a hyphen if there are none.
    pub fn hex<W: Write>(&mut self, sink: &mut W, bytes: &[u8]) -> io::Result<()>
        ensures told { Tells (W.contents sink.old) (filled self.old.bytes.now self.old.held) (W.contents sink.new) (filled self.new.bytes.now self.new.held) (hex_text bytes.now) result }
        ensures lent { self.new.bytes.ghost_name ≡ self.old.bytes.ghost_name }
    {
        if bytes.is_empty() {
            return self.text(sink, b" -");
        }
        self.byte(sink, b' ')?;
        self.pairs(sink, bytes)
    }

    // The newline after an answer.
    pub fn line_end<W: Write>(&mut self, sink: &mut W) -> io::Result<()>
        ensures told { Tells (W.contents sink.old) (filled self.old.bytes.now self.old.held) (W.contents sink.new) (filled self.new.bytes.now self.new.held) (10 ∷ []) result }
        ensures lent { self.new.bytes.ghost_name ≡ self.old.bytes.ghost_name }
        ensures kept { OnErr result (filled self.new.bytes.now self.new.held ≡ filled self.old.bytes.now self.old.held) }
    {
        self.byte(sink, b'\n')
    }

    // The answer to a line that the grammar doesn't read.
    pub fn bad_line<W: Write>(&mut self, sink: &mut W) -> io::Result<()>
        ensures told { Tells (W.contents sink.old) (filled self.old.bytes.now self.old.held) (W.contents sink.new) (filled self.new.bytes.now self.new.held) (codes "bad-line\n") result }
        ensures lent { self.new.bytes.ghost_name ≡ self.old.bytes.ghost_name }
    {
        self.text(sink, b"bad-line\n")
    }
}

// The digit of a value below 16.
fn hex_digit(x: u8) -> u8
    ensures { result ≡ hex_digit x }
{
    match x {
        0..10 => b'0' + x,
        10..16 => b'a' + (x - 10),
        _ => b'?',
    }
}
