// Reading a statement.
ghost use Rattle.std.specs.Prelude.{◌≡◌, Err, MatchResult};
ghost use Rattle.capture.specs.Messages.{statement};
ghost use Rattle.capture.specs.Stored.{stored_statement};
ghost use Rattle.lines.specs.Format.{LessonMessage, no_statement, in_statement};
ghost use Rattle.lines.specs.Values.{time_value};
ghost use Rattle.lines.specs.Ahead.{ahead, CountsOn};
ghost use Rattle.lines.specs.Blocks.{ReadOn};

use crate::line::Line;
use crate::line_reader::LineReader;
use crate::part::Part;
use crate::said::next_said;
use crate::{Malformed, Time};
use capture::StoredProgress;

// Reads the lines of a statement to its end, behind the line that opened it, and keeps as much of
// each list as there are places for.  It tells whether that is all of it.
pub(crate) fn read_progress(
    lines: &mut LineReader,
    rows: &mut StoredProgress<Time>,
) -> Result<bool, Malformed>
    requires { CountsOn lines.old }
    ensures { MatchResult result (λ whole. (m : LessonMessage) × ReadOn (in_statement Part.Lower no_statement) lines.old lines.new (statement (stored_statement time_value rows.new)) whole m) (λ e. ahead (in_statement Part.Lower no_statement) lines.old ≡ Err e.line) }
{
    rows.clear();
    let mut part = Part::Lower;
    let mut whole = true;
    while let Some(said) = next_said(lines)? {
        match said {
            Line::Lower(time) if part.until_lower() => whole &= rows.lower.push(time).is_ok(),
            Line::Upper(time) if part.until_upper() => {
                part = Part::Upper;
                whole &= rows.upper.push(time).is_ok();
            }
            Line::Count(time, n) => {
                part = Part::Counts;
                whole &= rows.counts.push((time, n)).is_ok();
            }
            Line::End => return Ok(whole),
            _ => {
                return Err(Malformed {
                    line: lines.count(),
                });
            }
        }
    }
    Err(Malformed {
        line: lines.count() + 1,
    })
}
