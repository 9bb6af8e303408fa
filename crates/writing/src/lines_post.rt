// A post over a block of bytes.
ghost use Rattle.std.specs.Prelude.{◌≡◌, ◌+◌, true, ◌&&◌, length, Ok, nat_le};
ghost use Rattle.capture.specs.Messages.{short};
ghost use Rattle.lines.specs.Format.{file_says};
ghost use Rattle.writing.specs.Writing.{lines_of};
ghost use Rattle.writing.specs.Puts.{written};
ghost use Rattle.writing.specs.Files.{messages_in, well_formed};

use crate::full::Full;
use crate::line_writer::LineWriter;
use capture::{Message, Writer};
use lines::Time;
use timetable::{Amount, Lesson};

// How many milliseconds a message is put off for.
const WAIT: u64 = 250;

// A post in a lent block of bytes: a file of the messages that it took.
#[derive(Drop)]
pub struct LinesPost<'a> {
    // the lines of the messages
    lines: LineWriter<'a>,
    // whether all of them are committed
    flushed: bool,
    ghost formed: { well_formed (written lines) ≡ true },
}

impl<'a> LinesPost<'a> {
    // A post that took nothing yet.
    pub fn new(bytes: &'a mut [u8]) -> LinesPost<'a>
        ensures same_bytes { result.lines.bytes.ghost_name ≡ bytes.entry.ghost_name }
        ensures bytes { result.lines.bytes.now ≡ bytes.old }
        ensures len { result.lines.len ≡ 0 }
        ensures flushed { result.flushed ≡ true }
    {
        LinesPost {
            lines: LineWriter::new(bytes),
            flushed: true,
        }
    }

    // Commits all that it took.
    pub fn flush(&mut self)
        ensures flushed { self.new.flushed ≡ true }
        ensures lines { self.new.lines ≡ self.old.lines }
    {
        self.flushed = true;
    }

    // The file of the messages that it took.
    pub fn file(&self) -> &[u8]
        ensures bytes { result.now ≡ written self.now.lines }
        ensures says { file_says result.now ≡ Ok (messages_in (written self.now.lines)) }
    {
        self.lines.written()
    }
}

impl<'a> Writer<Lesson, Time, Amount> for LinesPost<'a> {
    ghost taken = { λ p. messages_in (written p.lines) };

    ghost ready = { λ p m. short m && nat_le (p.lines.len + length (lines_of m)) (length p.lines.bytes.now) };

    ghost committed = { λ p. p.flushed };

    fn poll(&mut self, item: &Message<'_, Lesson, Time, Amount>) -> Option<u64> {
        if !item.is_short() {
            return Some(WAIT);
        }
        match self.lines.message(*item) {
            Ok(()) => {
                self.flushed = false;
                None
            }
            Err(Full) => Some(WAIT),
        }
    }

    fn done(&self) -> bool {
        self.flushed
    }
}
