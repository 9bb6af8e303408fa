// Lines for changes and for times, put into a lent block of bytes for callers who keep the place
// themselves.
//
// Each of these puts its lines behind the first `at` bytes and tells where they end, or that they do
// not fit, as none do where the block has fewer than `at` bytes.
ghost use Rattle.std.specs.Prelude.{map, OnSome};
ghost use Rattle.std.specs.List.{flat_map, AllByRecursion};
ghost use Rattle.lines.specs.Values.{time_value};
ghost use Rattle.writing.specs.Puts.{PutsAt, change_value, lettered_line, time_line};
ghost use Rattle.writing.specs.Writing.{FormedTime, FormedChange};

use crate::entry::Entry;
use crate::full::Full;
use crate::line_writer::LineWriter;
use lines::Time;
use timetable::{Amount, Lesson};

fn put_entries<E: Entry>(out: &mut [u8], at: usize, mark: u8, entries: &[E]) -> Option<usize>
    ensures text { PutsAt result out.old out.new at (flat_map (E.text mark) entries.now) }
    ensures form { OnSome result (AllByRecursion E.Formed entries.now) }
{
    if at > out.len() {
        return None;
    }
    let mut lines = LineWriter::behind(out, at);
    match lines.entries(mark, entries) {
        Ok(()) => Some(lines.written().len()),
        Err(Full) => None,
    }
}

// A line for each change, by a letter.
pub fn put_changes(
    out: &mut [u8],
    at: usize,
    letter: u8,
    changes: &[(Lesson, Time, Amount)],
) -> Option<usize>
    ensures text { PutsAt result out.old out.new at (flat_map (lettered_line letter) changes.now) }
    ensures form { OnSome result (AllByRecursion FormedChange (map change_value changes.now)) }
{
    put_entries(out, at, letter, changes)
}

// A line for each time, by a letter.
pub fn put_times(out: &mut [u8], at: usize, letter: u8, times: &[Time]) -> Option<usize>
    ensures text { PutsAt result out.old out.new at (flat_map (time_line letter) times.now) }
    ensures form { OnSome result (AllByRecursion FormedTime (map time_value times.now)) }
{
    put_entries(out, at, letter, times)
}
