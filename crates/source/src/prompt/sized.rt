// Whether the tables handed to a call are at least their sizes, as question 1 asks.  One line a table
// says which is asked for what; a chain over sizes would be no plainer.
ghost use Rattle.std.specs.Prelude.{◌≡◌};
ghost use Rattle.source.specs.Tables.{new_sized, sift_sized, note_sized, settle_sized, heed_sized};

use super::Prompt;
use capture::StoredProgress;
use frontier::FRONTIER_SIZE;
use lattice::PartialOrder;
use progress::{CHANGES_SIZE, COUNTS_SIZE, Lengths, are_sized, is_sized};

// What is in use of scratch tables, or of the tables of a reader that is to be started.
const NO_LENGTHS: Lengths = Lengths {
    frontier: 0,
    counts: 0,
    waiting: 0,
};

// The tables of a new reader.
pub(super) fn are_new_sized<D, T: PartialOrder, R>(
    frontier: &[T],
    reported: &[T],
    heeded: &[T],
    counts: &[(T, i64)],
    waiting_counts: &[(T, i64)],
    pending: &[(D, T, R)],
    waiting: &[StoredProgress<T>],
) -> bool
    ensures { result ≡ new_sized frontier.now reported.now heeded.now counts.now waiting_counts.now pending.now waiting.now }
{
    let progress = are_sized(NO_LENGTHS, frontier, counts, waiting, reported);
    let times = is_sized(FRONTIER_SIZE, 0, heeded.len());
    let sums = is_sized(COUNTS_SIZE, 0, waiting_counts.len());
    let changes = is_sized(CHANGES_SIZE, 0, pending.len());
    progress && (times && (sums && changes))
}

impl Prompt {
    // The tables of a sift.
    pub(super) fn are_sift_sized<D, T, R>(
        &self,
        heeded: &[T],
        waiting_counts: &[(T, i64)],
        pending: &[(D, T, R)],
        shipped: &[(D, T, R)],
        new: &[(D, T, R)],
        sums: &[(T, i64)],
    ) -> bool
        ensures { result ≡ sift_sized self.now heeded.now waiting_counts.now pending.now shipped.now new.now sums.now }
    {
        let times = is_sized(FRONTIER_SIZE, self.heeded, heeded.len());
        let counts = is_sized(COUNTS_SIZE, self.waiting_counts, waiting_counts.len());
        let changes = is_sized(CHANGES_SIZE, self.pending, pending.len());
        let answer = is_sized(CHANGES_SIZE, 0, shipped.len());
        let fresh = is_sized(CHANGES_SIZE, 0, new.len());
        let scratch = is_sized(COUNTS_SIZE, 0, sums.len());
        times && (counts && (changes && (answer && (fresh && scratch))))
    }

    // The tables of a note.
    pub(super) fn are_note_sized<T: PartialOrder>(
        &self,
        frontier: &[T],
        counts: &[(T, i64)],
        waiting: &[StoredProgress<T>],
        frontier2: &[T],
        counts2: &[(T, i64)],
        waiting2: &[StoredProgress<T>],
        join: &[T],
    ) -> bool
        ensures { result ≡ note_sized self.now frontier.now counts.now waiting.now frontier2.now counts2.now waiting2.now join.now }
    {
        let tables = are_sized(self.progress, frontier, counts, waiting, join);
        let scratch = are_sized(NO_LENGTHS, frontier2, counts2, waiting2, join);
        tables && scratch
    }

    // The tables of a settle.
    pub(super) fn are_settle_sized<T>(
        &self,
        frontier: &[T],
        reported: &[T],
        counts: &[(T, i64)],
        waiting_counts: &[(T, i64)],
        sums: &[(T, i64)],
        edge: &[T],
    ) -> bool
        ensures { result ≡ settle_sized self.now frontier.now reported.now counts.now waiting_counts.now sums.now edge.now }
    {
        let times = is_sized(FRONTIER_SIZE, self.progress.frontier, frontier.len());
        let seen = is_sized(FRONTIER_SIZE, self.reported, reported.len());
        let stated = is_sized(COUNTS_SIZE, self.progress.counts, counts.len());
        let added = is_sized(COUNTS_SIZE, self.waiting_counts, waiting_counts.len());
        let scratch = is_sized(COUNTS_SIZE, 0, sums.len());
        let made = is_sized(FRONTIER_SIZE, 0, edge.len());
        times && (seen && (stated && (added && (scratch && made))))
    }

    // The tables of a heed.
    pub(super) fn are_heed_sized<D, T, R>(
        &self,
        reported: &[T],
        heeded: &[T],
        pending: &[(D, T, R)],
    ) -> bool
        ensures { result ≡ heed_sized self.now reported.now heeded.now pending.now }
    {
        let seen = is_sized(FRONTIER_SIZE, self.reported, reported.len());
        let times = is_sized(FRONTIER_SIZE, self.heeded, heeded.len());
        let changes = is_sized(CHANGES_SIZE, self.pending, pending.len());
        seen && (times && changes)
    }
}
