// What the lines of a file say, one after the other.
ghost use Rattle.std.specs.Prelude.{◌≡◌, Err, MatchOption, MatchResult};
ghost use Rattle.lines.specs.Format.{Draft};
ghost use Rattle.lines.specs.Ahead.{ahead, NoneLeft, HandsOut};

use crate::Malformed;
use crate::line::{Line, read_line};
use crate::line_reader::LineReader;

// What the next line says, and none where no line is left; or names the line, where it is malformed.
pub(crate) fn next_said(lines: &mut LineReader) -> Result<Option<Line>, Malformed>
    ensures { MatchResult result (λ said. MatchOption said (NoneLeft lines.old lines.new) (λ x. HandsOut x lines.old lines.new)) (λ e. (d : Draft) → ahead d lines.old ≡ Err e.line) }
{
    let Some(line) = lines.next_line() else {
        return Ok(None);
    };
    let Some(said) = read_line(line) else {
        return Err(Malformed {
            line: lines.count(),
        });
    };
    Ok(Some(said))
}
