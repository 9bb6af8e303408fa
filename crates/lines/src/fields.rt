// The fields of a line, taken from its front.
ghost use Rattle.std.specs.Prelude.{◌≡◌, Some, None, MatchOption};
ghost use Rattle.timetable.specs.Weeks.{is_week};
ghost use Rattle.timetable.specs.Lessons.{lesson_value, amount_value};
ghost use Rattle.capture.specs.Views.{change_of, count_of};
ghost use Rattle.lines.specs.Fields.{only, behind_tab, number_then, time_in, time_then, lesson_then, signed_in, amount_in, change_in, count_in};
ghost use Rattle.lines.specs.Values.{time_value, Finds, FindsThen};

use crate::Time;
use crate::cuts::cut;
use crate::numbers::number;
use lattice::Product;
use timetable::{Amount, Lesson, Week};

// The byte that parts the fields of a line.
pub const TAB: u8 = b'\t';

// The fields that are left, parted by tabs.
#[derive(Drop)]
pub(crate) struct Fields<'a> {
    rest: &'a [u8],
}

impl<'a> Fields<'a> {
    // The fields behind the tab that begins the first.
    pub(crate) fn new(bytes: &'a [u8]) -> Option<Fields<'a>>
        ensures { Finds result (λ f. f.rest.now) (behind_tab bytes.now) }
    {
        match bytes {
            [b'\t', rest @ ..] => Some(Fields { rest }),
            _ => None,
        }
    }

    // A number with a tab behind it.
    fn number(&mut self) -> Option<u64>
        ensures { FindsThen result (λ n. n) (number_then self.old.rest.now) self.new.rest.now }
    {
        let (field, rest) = cut(self.rest, TAB)?;
        self.rest = rest;
        number(field)
    }

    // A round and a week, with a tab behind each.
    fn time(&mut self) -> Option<Time>
        ensures { FindsThen result time_value (time_then self.old.rest.now) self.new.rest.now }
    {
        time_of(self.number()?, self.number()?)
    }

    // A class, a room and a period, with a tab behind each.
    fn lesson(&mut self) -> Option<Lesson>
        ensures { FindsThen result lesson_value (lesson_then self.old.rest.now) self.new.rest.now }
    {
        let class = self.number()?;
        let room = self.number()?;
        let period = self.number()?;
        Lesson::new(class, room, period).ok()
    }

    // A round and a week, and no more.
    pub(crate) fn last_time(mut self) -> Option<Time>
        ensures { Finds result time_value (time_in self.entry.rest.now) }
    {
        time_of(self.number()?, number(self.rest)?)
    }

    // The lesson, the time and the amount of a change.
    pub(crate) fn change(mut self) -> Option<(Lesson, Time, Amount)>
        ensures { Finds result (change_of lesson_value time_value amount_value) (change_in self.entry.rest.now) }
    {
        let time = self.time()?;
        let lesson = self.lesson()?;
        let amount = amount(self.rest)?;
        Some((lesson, time, amount))
    }

    // The time of a count, and how many changes it counts.
    pub(crate) fn count(mut self) -> Option<(Time, u32)>
        ensures { Finds result (count_of time_value) (count_in self.entry.rest.now) }
    {
        let time = self.time()?;
        let n = u32::try_from(number(self.rest)?).ok()?;
        Some((time, n))
    }
}

// A round, and the week of a number.
fn time_of(outer: u64, week: u64) -> Option<Time>
    ensures { Finds result time_value (only (is_week week) (outer, week)) }
{
    let inner = Week::new(week).ok()?;
    Some(Product { outer, inner })
}

// A number that may have a minus before it, where it may be an amount's.
fn signed(field: &[u8]) -> Option<i64>
    ensures { MatchOption result (amount_in field.now ≡ None) (λ z. signed_in field.now ≡ Some z) }
{
    match field {
        [b'-', digits @ ..] => {
            let n = i64::try_from(number(digits)?).ok()?;
            if n == 0 { None } else { Some(-n) }
        }
        _ => i64::try_from(number(field)?).ok(),
    }
}

// An amount, and no more.
fn amount(field: &[u8]) -> Option<Amount>
    ensures { Finds result amount_value (amount_in field.now) }
{
    Amount::new(signed(field)?).ok()
}
