// Reading one message after the other.
ghost use Rattle.std.specs.Prelude.{◌≡◌, [], Err, MatchResult};
ghost use Rattle.timetable.specs.Lessons.{lesson_value, amount_value};
ghost use Rattle.capture.specs.Messages.{changes};
ghost use Rattle.capture.specs.Views.{message_of};
ghost use Rattle.lines.specs.Format.{outside};
ghost use Rattle.lines.specs.Ahead.{ahead};
ghost use Rattle.lines.specs.Values.{time_value};
ghost use Rattle.lines.specs.Blocks.{block_message, block_whole, Got};

use crate::line::Line;
use crate::line_reader::LineReader;
use crate::said::next_said;
use crate::statement::read_progress;
use crate::updates::read_updates;
use crate::{Malformed, Time};
use capture::{Message, Sort, StoredMessage};
use timetable::{Amount, Lesson};

// The message that was read last, with room for the largest.
#[derive(Clone, Copy)]
pub struct MessageBlock {
    // the message, or its front
    message: StoredMessage<Lesson, Time, Amount>,
    // whether there was a place for all of it
    whole: bool,
}

impl MessageBlock {
    // A block with a message without changes.
    pub fn new(filler: (Lesson, Time, Amount)) -> MessageBlock
        ensures { block_message result ≡ changes [] }
    {
        MessageBlock {
            message: StoredMessage::new(filler),
            whole: true,
        }
    }

    // The message, or its front where it is too long.
    pub fn view(&self) -> Message<'_, Lesson, Time, Amount>
        ensures { message_of lesson_value time_value amount_value result ≡ block_message self.now }
    {
        self.message.view()
    }

    // Whether the message that was read is not too long, so that the block has all of it.
    pub fn is_whole(&self) -> bool
        ensures { result ≡ block_whole self.now }
    {
        self.whole
    }

    // Reads the next message of a file, to its end however long it is, and tells whether there was
    // one; or names the first malformed line, and then what the block has means nothing.
    // A `bool`, as an `Option` of the message would lend the block on, so that no clause could say what it is then.
    pub fn read(&mut self, lines: &mut LineReader) -> Result<bool, Malformed>
        ensures { MatchResult result (λ some. Got some lines.old lines.new self.new) (λ e. ahead outside lines.old ≡ Err e.line) }
    {
        let Some(said) = next_said(lines)? else {
            if lines.is_done() {
                return Ok(false);
            }
            return Err(Malformed {
                line: lines.count() + 1,
            });
        };
        match said {
            Line::Updates => {
                self.whole = read_updates(lines, &mut self.message.updates)?;
                self.message.sort = Sort::Updates;
            }
            Line::Progress => {
                self.whole = read_progress(lines, &mut self.message.progress)?;
                self.message.sort = Sort::Progress;
            }
            _ => {
                return Err(Malformed {
                    line: lines.count(),
                });
            }
        }
        Ok(true)
    }
}
