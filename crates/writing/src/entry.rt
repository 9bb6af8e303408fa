// Entries of lines and of messages: numbers, changes, times and counts.
ghost use Rattle.std.specs.Prelude.{◌≡◌, ℕ, List, ◌∷◌, decimal};
ghost use Rattle.lines.specs.Values.{time_value};
ghost use Rattle.writing.specs.Puts.{Puts, change_value, count_value, lettered_line, time_line, lettered_count_line};
ghost use Rattle.writing.specs.Writing.{FormedTime, FormedChange, FormedCount};

use crate::full::Full;
use crate::line_writer::LineWriter;
use lines::{LINE_END, TAB, Time};
use timetable::{Amount, Lesson};

// What is written behind a byte that says what it is: a tab, or the letter of a line.
pub trait Entry: Copy {
    // its text by that byte
    ghost text: { ℕ → Self → List ℕ };

    // what it reads as has its form
    ghost Formed: { Self → Type 0 };

    fn put(self, mark: u8, out: &mut LineWriter<'_>) -> Result<(), Full>
        ensures text { Puts result out.old out.new (text mark self) }
        ensures form { Formed self };
}

impl Entry for u64 {
    ghost text = { λ mark n. mark ∷ decimal n };

    ghost Formed = { λ _. Unit {0} };

    fn put(self, mark: u8, out: &mut LineWriter<'_>) -> Result<(), Full> {
        out.number(mark, self)
    }
}

impl Entry for Time {
    ghost text = { time_line };

    ghost Formed = { λ t. FormedTime (time_value t) };

    fn put(self, mark: u8, out: &mut LineWriter<'_>) -> Result<(), Full> {
        out.line(mark, &[self.outer, self.inner.number() as u64])
    }
}

impl Entry for (Time, u32) {
    ghost text = { lettered_count_line };

    ghost Formed = { λ c. FormedCount (count_value c) };

    fn put(self, mark: u8, out: &mut LineWriter<'_>) -> Result<(), Full> {
        let (time, n) = self;
        out.line(mark, &[time.outer, time.inner.number() as u64, n as u64])
    }
}

impl Entry for (Lesson, Time, Amount) {
    ghost text = { lettered_line };

    ghost Formed = { λ c. FormedChange (change_value c) };

    fn put(self, mark: u8, out: &mut LineWriter<'_>) -> Result<(), Full> {
        let (lesson, time, amount) = self;
        let numbers = [
            time.outer,
            time.inner.number() as u64,
            lesson.class() as u64,
            lesson.room() as u64,
            lesson.period() as u64,
        ];
        out.byte(mark)?;
        out.entries(TAB, &numbers)?;
        out.number(TAB, amount.number())?;
        out.byte(LINE_END)
    }
}
