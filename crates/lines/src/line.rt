// One line of a file.
ghost use Rattle.std.specs.Prelude.{◌≡◌};
ghost use Rattle.lines.specs.Numbers.{alone};
ghost use Rattle.lines.specs.Said.{kind_says, line_says, line_value};
ghost use Rattle.lines.specs.Values.{Finds};

use crate::Time;
use crate::fields::Fields;
use timetable::{Amount, Lesson};

// What a well formed line says.
#[derive(Clone, Copy)]
pub enum Line {
    // opens a message of changes
    Updates,
    // opens a statement
    Progress,
    // a change: its lesson, time and amount
    Update(Lesson, Time, Amount),
    // a time of the lower list
    Lower(Time),
    // a time of the upper list
    Upper(Time),
    // a time, and how many changes there are at it
    Count(Time, u32),
    // ends a message of either sort
    End,
}

// A line that has no fields.
fn bare(line: Line, rest: &[u8]) -> Option<Line>
    ensures { Finds result line_value (alone (line_value line) rest.now) }
{
    rest.is_empty().then_some(line)
}

// What a line of the kind says, by the bytes behind the letter.  The kind is a letter, matched as it stands
// in the file (a rule of the project).
fn read_kind(kind: char, rest: &[u8]) -> Option<Line>
    ensures { Finds result line_value (kind_says kind rest.now) }
{
    match kind {
        'R' => bare(Line::Updates, rest),
        'S' => bare(Line::Progress, rest),
        'U' => {
            let (lesson, time, amount) = Fields::new(rest)?.change()?;
            Some(Line::Update(lesson, time, amount))
        }
        'L' => Some(Line::Lower(Fields::new(rest)?.last_time()?)),
        'H' => Some(Line::Upper(Fields::new(rest)?.last_time()?)),
        'C' => {
            let (time, n) = Fields::new(rest)?.count()?;
            Some(Line::Count(time, n))
        }
        'E' => bare(Line::End, rest),
        _ => None,
    }
}

// What a line says, without the byte 10 that ends it.
pub fn read_line(line: &[u8]) -> Option<Line>
    ensures { Finds result line_value (line_says line.now) }
{
    match line {
        [kind, rest @ ..] => read_kind(char::from(*kind), rest),
        _ => None,
    }
}
