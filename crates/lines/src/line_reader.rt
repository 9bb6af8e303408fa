// Lines as parts of the bytes that hold them.
ghost use Rattle.std.specs.Prelude.{◌≡◌, ◌+◌, ◌^◌, ◌<◌, ◌≤◌, length, Some, None, MatchOption, ◌==◌};
ghost use Rattle.lines.specs.Cuts.{cut_at};

use crate::cuts::cut;

// The byte that ends a line.
pub const LINE_END: u8 = b'\n';

// Hands out the lines of a file, from the first on: the bytes and a place in them, without a copy (a rule
// of the project).
#[derive(Clone, Copy)]
pub struct LineReader<'a> {
    // the bytes of the whole file
    bytes: &'a [u8],
    // where the next line begins
    at: usize,
    // how many lines were handed out
    count: usize,
    ghost few: { count ≤ at },
    ghost inside: { at ≤ length bytes.now },
    ghost small: { length bytes.now < 2 ^ 64 },
}

impl<'a> LineReader<'a> {
    ghost use Rattle.lines.specs.Ahead.{left};

    // A reader at the first line.
    pub fn new(bytes: &'a [u8]) -> LineReader<'a>
        ensures ahead { left result ≡ bytes.now }
        ensures count { result.count ≡ 0 }
    {
        LineReader {
            bytes,
            at: 0,
            count: 0,
        }
    }

    // How many lines were handed out.
    pub fn count(&self) -> usize
        ensures { result ≡ self.now.count }
    {
        self.count
    }

    // Whether there is nothing behind the lines that were handed out.
    pub fn is_done(&self) -> bool
        ensures { result ≡ (length (left self.now) == 0) }
    {
        self.at == self.bytes.len()
    }

    // The next line, without the byte 10 that ends it; none where no such byte is left.
    pub fn next_line(&mut self) -> Option<&'a [u8]>
        ensures line { MatchOption result (cut_at 10 (left self.old) ≡ None) (λ l. cut_at 10 (left self.old) ≡ Some (l.now, left self.new)) }
        ensures count { MatchOption result (self.new ≡ self.old) (λ _. self.new.count ≡ self.old.count + 1) }
        ensures place { MatchOption result (self.new ≡ self.old) (λ l. self.new.at ≡ self.old.at + (length l.now + 1)) }
    {
        let bytes = self.bytes;
        let (line, _) = cut(&bytes[self.at..], LINE_END)?;
        self.at += line.len() + 1;
        self.count += 1;
        Some(line)
    }
}
