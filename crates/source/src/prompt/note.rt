// Noting a statement.
ghost use Rattle.capture.specs.Views.{statement_of};
ghost use Rattle.source.specs.Calls.{Noted, timed, bare};

use super::Prompt;
use capture::{Progress, StoredProgress};
use lattice::{PartialOrder, Timestamp};
use progress::ProgressTables;
use questions::Refusal;

// The tables that a note works in.
pub struct NoteScratch<'a, T> {
    // for a progress frontier
    pub frontier: &'a mut [T],
    // for counts
    pub counts: &'a mut [(T, i64)],
    // for waiting statements
    pub waiting: &'a mut [StoredProgress<T>],
    // for a join
    pub join: &'a mut [T],
}

impl Prompt {
    // Takes a statement: it is dropped, or acts and lets others act, or waits.
    pub fn note<T: Timestamp + Copy>(
        &mut self,
        statement: Progress<'_, T>,
        frontier: &mut [T],
        counts: &mut [(T, i64)],
        waiting: &mut [StoredProgress<T>],
        scratch: NoteScratch<'_, T>,
    ) -> Result<(), Refusal>
        ensures { Noted (timed T.PartialOrder.below T.Lattice.joined T.Timestamp.start) T.PartialOrder.value bare result (statement_of T.PartialOrder.value statement.entry) self.old self.new frontier.old frontier.new counts.old counts.new waiting.old waiting.new scratch.entry.frontier.now scratch.entry.counts.now scratch.entry.waiting.now scratch.entry.join.now }
    {
        let NoteScratch {
            frontier: times,
            counts: sums,
            waiting: statements,
            join,
        } = scratch;
        if !self.are_note_sized(frontier, counts, waiting, times, sums, statements, join) {
            return Err(Refusal::ShortTable);
        }
        let lengths = self.progress;
        let mut own = ProgressTables {
            lengths,
            frontier,
            counts,
            waiting,
        };
        let mut made = ProgressTables {
            lengths,
            frontier: times,
            counts: sums,
            waiting: statements,
        };
        own.copy_to(&mut made);
        made.advance(statement, join)?;
        made.copy_to(&mut own);
        self.progress = own.lengths;
        Ok(())
    }
}
