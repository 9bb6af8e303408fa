// Whether the tables that are lent to a held reader are at least their sizes, as question 1 asks.
ghost use Rattle.std.specs.Prelude.{◌≡◌};
ghost use Rattle.iterator.specs.Readers.{tables, lent, few, own_sized, answers_sized, scratch_sized, all_sized};

use super::{Held, HeldAnswer, HeldScratch, HeldTables};
use capture::StoredProgress;
use frontier::FRONTIER_SIZE;
use lattice::{PartialOrder, Same};
use progress::{CHANGES_SIZE, COUNTS_SIZE, WAITING_SIZE};

// The reader's own tables.
pub(super) fn are_own_sized<D: Same, T: PartialOrder, R: Same>(
    frontier: &[T],
    reported: &[T],
    counts: &[(T, i64)],
    held: &[(D, T, R)],
    waiting: &[StoredProgress<T>],
) -> bool
    ensures { result ≡ own_sized (tables frontier.now reported.now counts.now held.now waiting.now) }
{
    let times = FRONTIER_SIZE <= frontier.len();
    let seen = FRONTIER_SIZE <= reported.len();
    let sums = COUNTS_SIZE <= counts.len();
    let kept = CHANGES_SIZE <= held.len();
    let statements = WAITING_SIZE <= waiting.len();
    times && (seen && (sums && (kept && statements)))
}

impl<D: Same, T: PartialOrder, R: Same> HeldTables<'_, D, T, R> {
    fn are_sized(&self, waiting: &[StoredProgress<T>]) -> bool
        ensures { result ≡ own_sized (lent self.now waiting.now) }
    {
        are_own_sized(
            self.frontier,
            self.reported,
            self.counts,
            self.held,
            waiting,
        )
    }
}

impl<D: Same, T: PartialOrder, R: Same> HeldAnswer<'_, D, T, R> {
    fn are_sized(&self) -> bool
        ensures { result ≡ answers_sized self.now.published.now self.now.told.now }
    {
        CHANGES_SIZE <= self.published.len() && FRONTIER_SIZE <= self.told.len()
    }
}

impl<D: Same, T: PartialOrder, R: Same> HeldScratch<'_, D, T, R> {
    fn are_sized(&self) -> bool
        ensures { result ≡ scratch_sized self.now.frontier.now self.now.counts.now self.now.waiting.now self.now.edge.now self.now.changes.now }
    {
        FRONTIER_SIZE <= self.frontier.len()
            && COUNTS_SIZE <= self.counts.len()
            && WAITING_SIZE <= self.waiting.len()
            && FRONTIER_SIZE <= self.edge.len()
            && CHANGES_SIZE <= self.changes.len()
    }
}

impl Held {
    // Whether no more of the reader's tables is said to be in use than their sizes.
    fn is_few(&self) -> bool
        ensures { result ≡ few self.now }
    {
        self.progress.frontier <= FRONTIER_SIZE
            && self.progress.counts <= COUNTS_SIZE
            && self.progress.waiting <= WAITING_SIZE
            && self.reported <= FRONTIER_SIZE
            && self.held <= CHANGES_SIZE
    }

    // Every table that feed is lent, and no more of the reader's in use.
    pub(super) fn are_all_sized<D: Same, T: PartialOrder, R: Same>(
        &self,
        tables: &HeldTables<'_, D, T, R>,
        waiting: &[StoredProgress<T>],
        answer: &HeldAnswer<'_, D, T, R>,
        scratch: &HeldScratch<'_, D, T, R>,
    ) -> bool
        ensures { result ≡ all_sized self.now (lent tables.now waiting.now) answer.now.published.now answer.now.told.now scratch.now.frontier.now scratch.now.counts.now scratch.now.waiting.now scratch.now.edge.now scratch.now.changes.now }
    {
        self.is_few() && tables.are_sized(waiting) && answer.are_sized() && scratch.are_sized()
    }
}
