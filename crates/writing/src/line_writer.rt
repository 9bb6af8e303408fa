// Lines written into a lent block of bytes.
ghost use Rattle.std.specs.Prelude.{◌≡◌, ◌≤◌, length};

use crate::entry::Entry;
use crate::full::Full;
use itoa::{Buffer, Integer};
use lines::{LINE_END, TAB};

// A lent block of bytes in which each text is written behind the one before.  After a text that
// did not fit, a part of it may stand behind what was written before.
//
// No `Vec`: a post allocates nothing (a rule of the project).
#[derive(Drop)]
pub struct LineWriter<'a> {
    // what is written stands first
    bytes: &'a mut [u8],
    // how many bytes it has
    len: usize,
    ghost inside: { len ≤ length bytes.now },
}

impl<'a> LineWriter<'a> {
    ghost use Rattle.std.specs.Prelude.{[], ◌∷◌, min, OnOk};
    ghost use Rattle.std.specs.List.{flat_map, AllByRecursion};
    ghost use Rattle.writing.specs.Puts.{written, Puts, numbers_line};

    // Nothing is written yet.
    pub fn new(bytes: &'a mut [u8]) -> LineWriter<'a>
        ensures same_bytes { result.bytes.ghost_name ≡ bytes.entry.ghost_name }
        ensures bytes { result.bytes.now ≡ bytes.old }
        ensures len { result.len ≡ 0 }
    {
        LineWriter { bytes, len: 0 }
    }

    // The first `at` bytes are written already, or all where there are fewer.
    pub fn behind(bytes: &'a mut [u8], at: usize) -> LineWriter<'a>
        ensures same_bytes { result.bytes.ghost_name ≡ bytes.entry.ghost_name }
        ensures bytes { result.bytes.now ≡ bytes.old }
        ensures len { result.len ≡ min at (length bytes.old) }
    {
        let len = at.min(bytes.len());
        LineWriter { bytes, len }
    }

    // What is written so far.
    pub fn written(&self) -> &[u8]
        ensures { result.now ≡ written self.now }
    {
        let all = &*self.bytes;
        &all[..self.len]
    }

    // Goes back to the first `len` bytes of what is written.
    pub fn truncate(&mut self, len: usize)
        ensures same_bytes { self.new.bytes.ghost_name ≡ self.old.bytes.ghost_name }
        ensures bytes { self.new.bytes.now ≡ self.old.bytes.now }
        ensures len { self.new.len ≡ min len self.old.len }
    {
        self.len = self.len.min(len);
    }

    fn text(&mut self, text: &[u8]) -> Result<(), Full>
        ensures { Puts result self.old self.new text.now }
    {
        if self.bytes.len() - self.len < text.len() {
            return Err(Full);
        }
        // Byte by byte, since most texts are a few digits.
        for byte in text {
            self.bytes[self.len] = *byte;
            self.len += 1;
        }
        Ok(())
    }

    #[tactic(auto, using(std::proofs::lemmas::List::take_more_set))]
    pub(crate) fn byte(&mut self, byte: u8) -> Result<(), Full>
        ensures { Puts result self.old self.new (byte ∷ []) }
    {
        if self.len == self.bytes.len() {
            return Err(Full);
        }
        self.bytes[self.len] = byte;
        self.len += 1;
        Ok(())
    }

    // A number in base ten behind a byte.  By `itoa`, since `write!` does not say that what it
    // refuses does not fit.
    pub(crate) fn number<N: Integer>(&mut self, mark: u8, n: N) -> Result<(), Full>
        ensures { Puts result self.old self.new (mark ∷ N.text n) }
    {
        self.byte(mark)?;
        let mut buffer = Buffer::new();
        self.text(buffer.format(n).as_bytes())
    }

    // Entries one behind the other, each by the same byte.
    pub fn entries<E: Entry>(&mut self, mark: u8, entries: &[E]) -> Result<(), Full>
        ensures text { Puts result self.old self.new (flat_map (E.text mark) entries.now) }
        ensures form { OnOk result (AllByRecursion E.Formed entries.now) }
    {
        for entry in entries {
            entry.put(mark, self)?;
        }
        Ok(())
    }

    // A line of a letter and numbers.  The letter is a byte that is written, and nothing asks which.
    pub fn line(&mut self, letter: u8, numbers: &[u64]) -> Result<(), Full>
        ensures { Puts result self.old self.new (numbers_line letter numbers.now) }
    {
        self.byte(letter)?;
        self.entries(TAB, numbers)?;
        self.byte(LINE_END)
    }
}
