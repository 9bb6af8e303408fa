// Reading the two lists.
ghost use Rattle.std.specs.Prelude.{◌≡◌, Some, None, Ok, Err, MatchOption, MatchResult};
ghost use Rattle.frontiers.specs.Input.{side_of, letter_of, line_says};
ghost use Rattle.lines.specs.Values.{time_value};

use lattice::Product;
use lines::{TAB, Time, cut, number};
use std::fmt;
use timetable::Week;

// The list that a line belongs to.
#[derive(Clone, Copy, Debug, PartialEq, Eq)]
pub enum Side {
    First,
    Second,
}

// What a malformed line lacks.
#[derive(Clone, Copy, Debug, PartialEq, Eq)]
pub enum Expected {
    // the letter of a list, and a tab
    Kind,
    // a round, and a tab
    Round,
    // a week
    Week,
    // byte 10 at the end of the line
    End,
}

impl fmt::Display for Expected {
    fn fmt<W: fmt::Write>(&self, f: &mut fmt::Formatter<W>) -> fmt::Result {
        f.write_str(match self {
            Expected::Kind => "L or H, then a tab",
            Expected::Round =>
                "a round, 0 to 18446744073709551615 without leading zeros, then a tab",
            Expected::Week => "a week, 0 or yyyyww with year 2000 to 2199 and week 01 to 52",
            Expected::End => "byte 10 at the end of the line",
        })
    }
}

// The list that a letter names, matched as it stands in the input (a rule of the project).
fn side_of(kind: char) -> Option<Side>
    ensures { result ≡ side_of kind }
{
    match kind {
        'L' => Some(Side::First),
        'H' => Some(Side::Second),
        _ => None,
    }
}

fn side_in(field: &[u8]) -> Option<Side>
    ensures { result ≡ letter_of field.now }
{
    match field {
        [letter] => side_of(*letter as char),
        _ => None,
    }
}

// The list and the time of one line.
pub fn read_line(line: &[u8]) -> Result<(Side, Time), Expected>
    ensures { MatchResult result (λ p. line_says line.now ≡ Ok (p.0, time_value p.1)) (λ e. line_says line.now ≡ Err e) }
{
    let (kind, rest) = cut(line, TAB).ok_or(Expected::Kind)?;
    let side = side_in(kind).ok_or(Expected::Kind)?;
    let (round, week) = cut(rest, TAB).ok_or(Expected::Round)?;
    let outer = number(round).ok_or(Expected::Round)?;
    let n = number(week).ok_or(Expected::Week)?;
    let inner = Week::try_from(n).map_err(|_| Expected::Week)?;
    Ok((side, Product { outer, inner }))
}
