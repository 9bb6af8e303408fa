// Statements at work: what they are asked, and how they act on a reader's progress.
//
// Where a step refuses, what it wrote into its tables stays there.  So callers hand it scratch
// tables, and take over what it made only when it was accepted.
ghost use Rattle.std.specs.Prelude.{◌≡◌, ◌+◌, ◌≤◌, true, not, ◌&&◌, [], ◌∷◌, ◌++◌, map, length, nat_lt};
ghost use Rattle.std.specs.List.{list_all, prefix_len};
ghost use Rattle.questions.specs.Answers.{Answered};
ghost use Rattle.lattice.specs.Orders.{at_once};
ghost use Rattle.frontier.specs.Frontiers.{beyond};
ghost use Rattle.frontier.specs.Counts.{added_all, room};
ghost use Rattle.frontier.specs.Tables.{in_use, Holds, table_asks, counted, sized, frontier_size};
ghost use Rattle.capture.specs.Sizes.{reader_counts, reader_statements};
ghost use Rattle.capture.specs.Messages.{short_statement};
ghost use Rattle.capture.specs.Statements.{small, inside, counted_once, counts_beyond, passed, ready, not_passed, act as acted, act_asks, drained, drain_asks, advanced, statement_asks};
ghost use Rattle.capture.specs.Stored.{stored_statement};
ghost use Rattle.capture.specs.Views.{count_of, statement_of};
ghost use Rattle.progress.specs.Tables.{time_of, progress_of, progress_sized, HoldsProgress, ProgressSized, made_asks, turns_asks, course_asks};

use crate::{COUNTS_SIZE, WAITING_SIZE};
use capture::{Progress, StoredProgress};
use frontier::{FRONTIER_SIZE, antichain_less_equal, entries, is_beyond, steps};
use lattice::{PartialOrder, Timestamp, same_time};
use questions::Refusal;

// How many entries of each table of a reader's progress are in use.
#[derive(Clone, Copy)]
pub struct Lengths {
    // the times of the progress frontier
    pub frontier: usize,
    // the counts
    pub counts: usize,
    // the waiting statements
    pub waiting: usize,
}

// A count that is announced is at most this.
pub const LARGEST_COUNT: u32 = capture::LARGEST_COUNT;

// Whether no count is over the largest, as question 5 asks.
pub fn is_small<T: PartialOrder>(counts: &[(T, u32)]) -> bool
    ensures { result ≡ small (map (count_of T.value) counts.now) }
{
    counts.iter().all(|c| c.1 <= LARGEST_COUNT)
}

// Whether a time is beyond the lower list and behind the upper one.
fn is_between<T: PartialOrder>(lower: &[T], upper: &[T], time: &T) -> bool
    ensures { result ≡ (beyond T.below (map T.value lower.now) (T.value time.now) && not (beyond T.below (map T.value upper.now) (T.value time.now))) }
{
    is_beyond(lower, time) && !is_beyond(upper, time)
}

// Whether each counted time is beyond the lower list and behind the upper one, as question 6 asks.
pub fn is_inside<T: PartialOrder>(lower: &[T], upper: &[T], counts: &[(T, u32)]) -> bool
    ensures { result ≡ inside T.below (map T.value lower.now) (map T.value upper.now) (map (count_of T.value) counts.now) }
{
    counts.iter().all(|c| is_between(lower, upper, &c.0))
}

// Whether none of the counts is of the time.
fn is_uncounted<T: PartialOrder>(counts: &[(T, u32)], time: &T) -> bool
    ensures { result ≡ list_all (λ c. not (at_once T.below (T.value time.now) c.0)) (map (count_of T.value) counts.now) }
{
    counts.iter().all(|c| !same_time(time, &c.0))
}

// Whether no time is counted twice, as question 7 asks.
// A `for` over places: tried as `enumerate().all(..)`, where the answer's tie to the meaning stayed open.
pub fn is_counted_once<T: PartialOrder>(counts: &[(T, u32)]) -> bool
    ensures { result ≡ counted_once T.below (map (count_of T.value) counts.now) }
{
    for (i, c) in counts.iter().enumerate() {
        if !is_uncounted(&counts[i + 1..], &c.0) {
            return false;
        }
    }
    true
}

// Adds the counts that are not behind the progress frontier to the table's, of which the first
// `len` are in use, and tells how many it has then.
pub fn add_counts<T: PartialOrder + Copy>(
    table: &mut [(T, i64)],
    len: usize,
    frontier: &[T],
    counts: &[(T, u32)],
) -> Result<usize, Refusal>
    ensures { Answered result
        (table_asks reader_counts 11 (length table.old) len (room T.below reader_counts (in_use (counted T.value) len table.old) (counts_beyond T.below (map T.value frontier.now) (map (count_of T.value) counts.now))))
        (λ n. Holds (counted T.value) n table.new (added_all T.below (in_use (counted T.value) len table.old) (counts_beyond T.below (map T.value frontier.now) (map (count_of T.value) counts.now))))
        (Unit {0}) }
{
    let beyond = counts.iter().filter(|c| is_beyond(frontier, &c.0));
    let amounts = beyond.map(|c| (c.0, i64::from(c.1)));
    steps::update_all(table, len, COUNTS_SIZE, amounts)
}

// Whether a waiting statement can act: its lower list is at or before the progress frontier.
// Kept beside `is_passed`: which list is asked is all that each says.
pub(crate) fn is_ready<T: PartialOrder + Copy>(entry: &StoredProgress<T>, frontier: &[T]) -> bool
    ensures { result ≡ ready T.below (map T.value frontier.now) (stored_statement T.value entry.now) }
{
    antichain_less_equal(entry.view().lower, frontier)
}

// Whether a waiting statement says nothing new: its upper list is at or before the progress frontier.
fn is_passed<T: PartialOrder + Copy>(entry: &StoredProgress<T>, frontier: &[T]) -> bool
    ensures { result ≡ passed T.below (map T.value frontier.now) (stored_statement T.value entry.now) }
{
    antichain_less_equal(entry.view().upper, frontier)
}

// How many statements wait before the first that can act; that is all of them where none can.  The test
// says what it answers, since no tactic finds that through the view of an entry.
pub(crate) fn first_ready<T: PartialOrder + Copy>(
    waiting: &[StoredProgress<T>],
    frontier: &[T],
) -> usize
    ensures { result ≡ prefix_len (λ s. not (ready T.below (map T.value frontier.now) s)) (map (stored_statement T.value) waiting.now) }
{
    waiting
        .iter()
        .position(
            |e|
                ensures { result ≡ ready T.below (map T.value frontier.entry.now) (stored_statement T.value e.now) }
            { is_ready(e, frontier) },
        )
        .unwrap_or(waiting.len())
}

// Keeps those of the first `len` statements that are not passed, in their order, and tells how many
// they are.
pub(crate) fn drop_passed<T: PartialOrder + Copy>(
    waiting: &mut [StoredProgress<T>],
    len: usize,
    frontier: &[T],
) -> usize
    requires { len ≤ length waiting.old }
    ensures within { result ≤ len }
    ensures after { Holds (stored_statement T.value) result waiting.new (not_passed T.below (map T.value frontier.now) (in_use (stored_statement T.value) len waiting.old)) }
{
    entries::retain(
        waiting,
        len,
        |e|
            ensures { result ≡ not (passed T.below (map T.value frontier.entry.now) (stored_statement T.value e.now)) }
        { !is_passed(e, frontier) },
    )
}

// A statement waits: it is stored after the others.
pub(crate) fn wait<T: PartialOrder + Copy>(
    statement: Progress<'_, T>,
    waiting: &mut [StoredProgress<T>],
    len: usize,
) -> Result<usize, Refusal>
    requires { (short_statement (statement_of T.value statement) ≡ true) × ((len ≤ reader_statements) × (reader_statements ≤ length waiting.old)) }
    ensures { Answered result
        ((nat_lt len reader_statements, 10) ∷ [])
        (λ n. (in_use (stored_statement T.value) n waiting.new ≡ in_use (stored_statement T.value) len waiting.old ++ statement_of T.value statement.entry ∷ []) × (n ≤ reader_statements))
        (Unit {0}) }
{
    if len >= WAITING_SIZE {
        return Err(Refusal::ManyWaiting);
    }
    waiting[len].store(statement)?;
    Ok(len + 1)
}

// What every statement is asked, whatever comes of it: questions 2, 5, 6 and 7.
pub(crate) fn check<T: PartialOrder>(statement: Progress<'_, T>) -> Result<(), Refusal>
    ensures { Answered result (made_asks T.below (statement_of T.value statement.entry)) (λ _. Unit {0}) (Unit {0}) }
{
    if !statement.is_short() {
        return Err(Refusal::LongMessage);
    }
    if !is_small(statement.counts) {
        return Err(Refusal::LargeCount);
    }
    if !is_inside(statement.lower, statement.upper, statement.counts) {
        return Err(Refusal::OutsideStatement);
    }
    if !is_counted_once(statement.counts) {
        return Err(Refusal::CountedTwice);
    }
    Ok(())
}

// Whether a table of so many entries is at least its size, and no more of it is in use.
pub fn is_sized(size: usize, used: usize, entries: usize) -> bool
    ensures { result ≡ sized size used entries }
{
    used <= size && size <= entries
}

// Whether each table of a reader's progress is at least its size, as question 1 asks.
pub fn are_sized<T: PartialOrder>(
    lengths: Lengths,
    frontier: &[T],
    counts: &[(T, i64)],
    waiting: &[StoredProgress<T>],
    scratch: &[T],
) -> bool
    ensures { result ≡ progress_sized lengths frontier.now counts.now waiting.now scratch.now }
{
    let times = is_sized(FRONTIER_SIZE, lengths.frontier, frontier.len());
    let sums = is_sized(COUNTS_SIZE, lengths.counts, counts.len());
    let statements = is_sized(WAITING_SIZE, lengths.waiting, waiting.len());
    let spare = is_sized(FRONTIER_SIZE, 0, scratch.len());
    times && (sums && (statements && spare))
}
