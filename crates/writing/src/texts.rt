// A line put into a lent block of bytes, for callers who keep the place themselves.
ghost use Rattle.writing.specs.Puts.{PutsAt, numbers_line};

use crate::full::Full;
use crate::line_writer::LineWriter;

// A line of a letter and numbers behind the first `at` bytes: tells where it ends, or that it does
// not fit.
pub fn put_line(out: &mut [u8], at: usize, letter: u8, numbers: &[u64]) -> Option<usize>
    ensures { PutsAt result out.old out.new at (numbers_line letter numbers.now) }
{
    if at > out.len() {
        return None;
    }
    let mut lines = LineWriter::behind(out, at);
    match lines.line(letter, numbers) {
        Ok(()) => Some(lines.written().len()),
        Err(Full) => None,
    }
}
