// Reading a message of changes.
ghost use Rattle.std.specs.Prelude.{◌≡◌, [], Err, MatchResult};
ghost use Rattle.capture.specs.Messages.{changes};
ghost use Rattle.lines.specs.Format.{LessonMessage, in_changes};
ghost use Rattle.lines.specs.Ahead.{ahead, changes_in, CountsOn};
ghost use Rattle.lines.specs.Blocks.{ReadOn};

use crate::line::Line;
use crate::line_reader::LineReader;
use crate::said::next_said;
use crate::{Malformed, Time};
use capture::StoredUpdates;
use timetable::{Amount, Lesson};

// Reads the lines of a message of changes to its end, behind the line that opened it, and keeps as
// many changes as there are places for.  It tells whether that is all of them.
pub(crate) fn read_updates(
    lines: &mut LineReader,
    updates: &mut StoredUpdates<Lesson, Time, Amount>,
) -> Result<bool, Malformed>
    requires { CountsOn lines.old }
    ensures { MatchResult result (λ whole. (m : LessonMessage) × ReadOn (in_changes []) lines.old lines.new (changes (changes_in updates.new)) whole m) (λ e. ahead (in_changes []) lines.old ≡ Err e.line) }
{
    updates.clear();
    let mut whole = true;
    while let Some(said) = next_said(lines)? {
        match said {
            Line::Update(lesson, time, amount) => {
                whole &= updates.push((lesson, time, amount)).is_ok();
            }
            Line::End => return Ok(whole),
            _ => {
                return Err(Malformed {
                    line: lines.count(),
                });
            }
        }
    }
    Err(Malformed {
        line: lines.count() + 1,
    })
}
