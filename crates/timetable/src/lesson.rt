// Lessons, the data of the timetable.
ghost use Rattle.std.specs.Prelude.{◌≡◌, ◌&&◌, T, [], ◌∷◌, nat_le};
ghost use Rattle.questions.specs.Answers.{Answered};
ghost use Rattle.timetable.specs.Lessons.{is_class, is_room, is_period, is_lesson, lesson_value, alike_lessons};
ghost use Rattle.std.proofs.Common.{rules};

use crate::or_least;
use lattice::Same;
use questions::Refusal;

// Classes, rooms and periods have the numbers from 1 to the last.
const LAST_CLASS: u64 = 9_999;

const LAST_ROOM: u64 = 200;

const LAST_PERIOD: u64 = 50;

// A class in a room in a period of the week.
// No equality is derived: a stored number outside its form is the same as 1 (a rule of the project).
#[derive(Clone, Copy, Debug)]
pub struct Lesson {
    // 1 to 9,999; any other number reads as 1
    class: u16,
    // 1 to 200; any other number reads as 1
    room: u8,
    // 1 to 50; any other number reads as 1
    period: u8,
}

// Whether a number is one from 1 to the last.
fn is_up_to(last: u64, n: u64) -> bool
    ensures { result ≡ (nat_le 1 n && nat_le n last) }
{
    (1..=last).contains(&n)
}

impl Lesson {
    // The lesson of a class, a room and a period.
    pub fn new(class: u64, room: u64, period: u64) -> Result<Lesson, Refusal>
        ensures { Answered result ((is_lesson (class, room, period), 14) ∷ []) (λ l. lesson_value l ≡ (class, room, period)) (Unit {0}) }
    {
        if is_up_to(LAST_CLASS, class)
            && is_up_to(LAST_ROOM, room)
            && is_up_to(LAST_PERIOD, period)
        {
            Ok(Lesson {
                class: class as u16,
                room: room as u8,
                period: period as u8,
            })
        } else {
            Err(Refusal::Malformed)
        }
    }

    // Kept beside the next two: which number it is and its last are all that each says.
    pub fn class(&self) -> u16
        ensures value { result ≡ (lesson_value self.now).0 }
        ensures form { T (is_class result) }
    {
        or_least(self.class, is_up_to(LAST_CLASS, self.class as u64), 1)
    }

    pub fn room(&self) -> u8
        ensures value { result ≡ (lesson_value self.now).1 }
        ensures form { T (is_room result) }
    {
        or_least(self.room, is_up_to(LAST_ROOM, self.room as u64), 1)
    }

    pub fn period(&self) -> u8
        ensures value { result ≡ (lesson_value self.now).2 }
        ensures form { T (is_period result) }
    {
        or_least(self.period, is_up_to(LAST_PERIOD, self.period as u64), 1)
    }
}

impl Same for Lesson {
    type Value = (u16, u8, u8);

    ghost value = { lesson_value };

    ghost alike = { alike_lessons };

    ghost exact = { Prim.search rules };

    fn same(&self, other: &Lesson) -> bool {
        self.class() == other.class()
            && self.room() == other.room()
            && self.period() == other.period()
    }
}
