// The tables of a reader's progress, lent together, and statements that act on them.
//
// Where a step refuses, what it wrote into its tables stays there.  So callers hand it scratch
// tables, and take over what it made only when it was accepted.
ghost use Rattle.std.specs.Prelude.{◌≡◌, ◌≤◌, true, ◌∷◌, length, take};
ghost use Rattle.questions.specs.Answers.{Answered};
ghost use Rattle.frontier.specs.Tables.{sized, frontier_size};
ghost use Rattle.capture.specs.Kinds.{time_by};
ghost use Rattle.capture.specs.Messages.{short_statement};
ghost use Rattle.capture.specs.Statements.{act as acted, act_asks, drained, drain_asks, advanced, statement_asks};
ghost use Rattle.capture.specs.Views.{statement_of};
ghost use Rattle.progress.specs.Tables.{turns_asks, course_asks, ProgressSized};

use crate::statements::{add_counts, check, drop_passed, first_ready, wait};
use crate::{Lengths, are_sized, is_sized};
use capture::{Progress, StoredProgress};
use frontier::{FRONTIER_SIZE, antichain_less_equal, entries, steps};
use lattice::Timestamp;
use questions::Refusal;

// The tables of a reader's progress, with how many entries of each are in use.  Each is at least its
// size, and no more of it is in use.  `W` is the stored form of a waiting statement.
#[derive(Drop)]
pub struct ProgressTables<'a, T, W> {
    pub lengths: Lengths,
    // the times of the progress frontier
    pub frontier: &'a mut [T],
    // the counts
    pub counts: &'a mut [(T, i64)],
    // the waiting statements
    pub waiting: &'a mut [W],
    ghost sized: { ProgressSized lengths frontier.now counts.now waiting.now },
}

// A scratch table for a frontier.
#[derive(Drop)]
struct Spare<'a, T> {
    times: &'a mut [T],
    ghost sized: { frontier_size ≤ length times.now },
}

impl<T: Copy, W: Copy> ProgressTables<'_, T, W> {
    ghost use Rattle.progress.specs.Lent.{SameTables, SameEntries};

    // The times of the progress frontier.
    pub fn frontier(&self) -> &[T]
        ensures { result.now ≡ take self.now.lengths.frontier self.now.frontier.now }
    {
        &self.frontier[..self.lengths.frontier]
    }

    // The counts in use.
    pub fn counts(&self) -> &[(T, i64)]
        ensures { result.now ≡ take self.now.lengths.counts self.now.counts.now }
    {
        &self.counts[..self.lengths.counts]
    }

    // The waiting statements.
    pub fn waiting(&self) -> &[W]
        ensures { result.now ≡ take self.now.lengths.waiting self.now.waiting.now }
    {
        &self.waiting[..self.lengths.waiting]
    }

    // Copies what is in use to other tables.
    pub fn copy_to(&self, other: &mut ProgressTables<'_, T, W>)
        ensures tables { SameTables other.old other.new }
        ensures entries { SameEntries self.now other.new }
    {
        let n = self.lengths;
        entries::copy_entries(self.frontier, other.frontier, n.frontier);
        entries::copy_entries(self.counts, other.counts, n.counts);
        entries::copy_entries(self.waiting, other.waiting, n.waiting);
        other.lengths = n;
    }
}

impl<T: Timestamp + Copy> ProgressTables<'_, T, StoredProgress<T>> {
    ghost use Rattle.progress.specs.Lent.{SameTables, progress_in};

    // A statement acts: its counts that are not behind the progress frontier are added, its upper
    // list is joined to the frontier, and the statements that this passes no longer wait.
    fn act(&mut self, statement: Progress<'_, T>, spare: &mut Spare<'_, T>) -> Result<(), Refusal>
        ensures answer { Answered result
            (act_asks (time_by T.Timestamp) (statement_of T.PartialOrder.value statement.entry) (progress_in T.PartialOrder.value self.old))
            (λ _. progress_in T.PartialOrder.value self.new ≡ acted (time_by T.Timestamp) (statement_of T.PartialOrder.value statement.entry) (progress_in T.PartialOrder.value self.old))
            (Unit {0}) }
        ensures tables { SameTables self.old self.new }
    {
        let n = self.lengths;
        let times = &mut *spare.times;
        // A copy of the frontier stands beside the counts that change.
        entries::copy_entries(self.frontier(), times, n.frontier);
        let added = add_counts(
            self.counts,
            n.counts,
            &times[..n.frontier],
            statement.counts,
        )?;
        let joined = steps::join_into(statement.upper, self.frontier(), times)?;
        let left = drop_passed(self.waiting, n.waiting, &times[..joined]);
        entries::copy_entries(times, self.frontier, joined);
        self.lengths = Lengths {
            frontier: joined,
            counts: added,
            waiting: left,
        };
        Ok(())
    }

    // Waiting statements act, the first that can each time, until none can or as many turns are over.
    fn drain(&mut self, turns: usize, spare: &mut Spare<'_, T>) -> Result<(), Refusal>
        ensures answer { Answered result
            (drain_asks (time_by T.Timestamp) turns (progress_in T.PartialOrder.value self.old))
            (λ _. progress_in T.PartialOrder.value self.new ≡ drained (time_by T.Timestamp) turns (progress_in T.PartialOrder.value self.old))
            (Unit {0}) }
        ensures tables { SameTables self.old self.new }
    {
        for _ in 0..turns {
            let at = first_ready(self.waiting(), self.frontier());
            if at >= self.lengths.waiting {
                return Ok(());
            }
            let next = self.waiting[at];
            self.act(next.view(), spare)?;
        }
        Ok(())
    }

    // A statement acts, and then waiting ones, as long as there is one that can.
    fn act_in_turn(
        &mut self,
        statement: Progress<'_, T>,
        spare: &mut Spare<'_, T>,
    ) -> Result<(), Refusal>
        ensures answer { Answered result
            (turns_asks (time_by T.Timestamp) self.old.lengths.waiting (statement_of T.PartialOrder.value statement.entry) (progress_in T.PartialOrder.value self.old))
            (λ _. progress_in T.PartialOrder.value self.new ≡ drained (time_by T.Timestamp) self.old.lengths.waiting (acted (time_by T.Timestamp) (statement_of T.PartialOrder.value statement.entry) (progress_in T.PartialOrder.value self.old)))
            (Unit {0}) }
        ensures tables { SameTables self.old self.new }
    {
        let turns = self.lengths.waiting;
        self.act(statement, spare)?;
        self.drain(turns, spare)
    }

    // A statement that is not too long is dropped, acts, or waits.
    fn dispatch(
        &mut self,
        statement: Progress<'_, T>,
        spare: &mut Spare<'_, T>,
    ) -> Result<(), Refusal>
        requires { short_statement (statement_of T.PartialOrder.value statement) ≡ true }
        ensures answer { Answered result
            (course_asks (time_by T.Timestamp) (statement_of T.PartialOrder.value statement.entry) (progress_in T.PartialOrder.value self.old))
            (λ _. progress_in T.PartialOrder.value self.new ≡ advanced (time_by T.Timestamp) (statement_of T.PartialOrder.value statement.entry) (progress_in T.PartialOrder.value self.old))
            (Unit {0}) }
        ensures tables { SameTables self.old self.new }
    {
        if antichain_less_equal(statement.upper, self.frontier()) {
            return Ok(());
        }
        if antichain_less_equal(statement.lower, self.frontier()) {
            return self.act_in_turn(statement, spare);
        }
        self.lengths.waiting = wait(statement, self.waiting, self.lengths.waiting)?;
        Ok(())
    }

    // A statement comes to a reader whose progress stands in the tables: it is dropped, or acts and
    // lets others act, or waits.
    pub fn advance(&mut self, statement: Progress<'_, T>, scratch: &mut [T]) -> Result<(), Refusal>
        ensures answer { Answered result
            ((sized frontier_size 0 (length scratch.old), 1) ∷ statement_asks (time_by T.Timestamp) (statement_of T.PartialOrder.value statement.entry) (progress_in T.PartialOrder.value self.old))
            (λ _. progress_in T.PartialOrder.value self.new ≡ advanced (time_by T.Timestamp) (statement_of T.PartialOrder.value statement.entry) (progress_in T.PartialOrder.value self.old))
            (Unit {0}) }
        ensures tables { SameTables self.old self.new }
    {
        if !is_sized(FRONTIER_SIZE, 0, scratch.len()) {
            return Err(Refusal::ShortTable);
        }
        check(statement)?;
        let mut spare = Spare { times: scratch };
        self.dispatch(statement, &mut spare)
    }
}
