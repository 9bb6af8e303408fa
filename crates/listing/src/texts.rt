// The lines of a listing, put into lent bytes.
ghost use Rattle.std.specs.Prelude.{map, length, IfOk};
ghost use Rattle.lines.specs.Values.{time_value};
ghost use Rattle.writing.specs.Puts.{change_value, Puts};
ghost use Rattle.listing.specs.Listing.{interval_text, answer_text};
ghost use Rattle.capture.specs.Answers.{accepted};
ghost use Rattle.listing.specs.Answers.{interval_of, answer_of, Within};

use lines::Time;
use questions::Refusal;
use timetable::{Amount, Lesson};
use writing::{Full, LineWriter};

// An interval: I with both lengths, a P line for each change, an F line for each time.
fn put_interval(
    out: &mut LineWriter<'_>,
    changes: &[(Lesson, Time, Amount)],
    times: &[Time],
) -> Result<(), Full>
    ensures { Puts result out.old out.new (interval_text (map change_value changes.now, map time_value times.now)) }
{
    out.line(b'I', &[changes.len() as u64, times.len() as u64])?;
    out.entries(b'P', changes)?;
    out.entries(b'F', times)
}

// What an accepted feed told: an interval with its entries in the answer tables, or none.
//
// The lengths stand beside the tables, since feed answers them so (a rule of the project).
fn put_told(
    out: &mut LineWriter<'_>,
    lens: Option<(usize, usize)>,
    published: &[(Lesson, Time, Amount)],
    told: &[Time],
) -> Result<(), Full>
    requires { Within lens (length published.now) (length told.now) }
    ensures { Puts result out.old out.new (answer_text (accepted (interval_of lens published.now told.now))) }
{
    match lens {
        Some((n, m)) => put_interval(out, &published[..n], &told[..m]),
        None => Ok(()),
    }
}

// What feed answered, with the tables that it filled beside it (a rule of the project).
pub(crate) fn put_answer(
    out: &mut LineWriter<'_>,
    answer: Result<Option<(usize, usize)>, Refusal>,
    published: &[(Lesson, Time, Amount)],
    told: &[Time],
) -> Result<(), Full>
    requires { IfOk answer (λ lens. Within lens (length published.now) (length told.now)) }
    ensures { Puts result out.old out.new (answer_text (answer_of answer published.now told.now)) }
{
    match answer {
        Ok(lens) => put_told(out, lens, published, told),
        Err(refusal) => out.line(b'N', &[refusal.number() as u64]),
    }
}
