// Messages written as lines.
ghost use Rattle.std.specs.Prelude.{◌≡◌, map, OnSome, OnOk, OnErr};
ghost use Rattle.capture.specs.Messages.{changes, statement};
ghost use Rattle.writing.specs.Puts.{change_value, statement_value, message_value, Puts, PutsAt};
ghost use Rattle.writing.specs.Writing.{lines_of, Formed};

use crate::full::Full;
use crate::line_writer::LineWriter;
use capture::{Message, Progress};
use lines::Time;
use timetable::{Amount, Lesson};

impl<'a> LineWriter<'a> {
    fn updates(&mut self, entries: &[(Lesson, Time, Amount)]) -> Result<(), Full>
        ensures text { Puts result self.old self.new (lines_of (changes (map change_value entries.now))) }
        ensures form { OnOk result (Formed (changes (map change_value entries.now))) }
    {
        self.line(b'R', &[])?;
        self.entries(b'U', entries)?;
        self.line(b'E', &[])
    }

    fn progress(&mut self, stated: Progress<'_, Time>) -> Result<(), Full>
        ensures text { Puts result self.old self.new (lines_of (statement (statement_value stated.entry))) }
        ensures form { OnOk result (Formed (statement (statement_value stated.entry))) }
    {
        self.line(b'S', &[])?;
        self.entries(b'L', stated.lower)?;
        self.entries(b'H', stated.upper)?;
        self.entries(b'C', stated.counts)?;
        self.line(b'E', &[])
    }

    fn parts(&mut self, message: Message<'_, Lesson, Time, Amount>) -> Result<(), Full>
        ensures text { Puts result self.old self.new (lines_of (message_value message.entry)) }
        ensures form { OnOk result (Formed (message_value message.entry)) }
    {
        match message {
            Message::Updates(changes) => self.updates(changes),
            Message::Progress(statement) => self.progress(statement),
        }
    }

    // Writes a message as lines, or nothing where they do not fit.  What was written has the form
    // that lets it be read back.
    pub fn message(&mut self, message: Message<'_, Lesson, Time, Amount>) -> Result<(), Full>
        ensures text { Puts result self.old self.new (lines_of (message_value message.entry)) }
        ensures form { OnOk result (Formed (message_value message.entry)) }
        ensures whole { OnErr result (self.new.len ≡ self.old.len) }
    {
        let before = self.written().len();
        let put = self.parts(message);
        if put.is_err() {
            self.truncate(before);
        }
        put
    }
}

// Writes a message as lines behind the first `at` bytes, and tells where they end; or that they do
// not fit, and then the first `at` bytes are as before.  What was written has the form that lets it
// be read back.
pub fn write_message(
    out: &mut [u8],
    at: usize,
    message: Message<'_, Lesson, Time, Amount>,
) -> Option<usize>
    ensures text { PutsAt result out.old out.new at (lines_of (message_value message.entry)) }
    ensures form { OnSome result (Formed (message_value message.entry)) }
{
    if at > out.len() {
        return None;
    }
    let mut lines = LineWriter::behind(out, at);
    match lines.message(message) {
        Ok(()) => Some(lines.written().len()),
        Err(Full) => None,
    }
}
