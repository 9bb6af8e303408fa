// Settling.
ghost use Rattle.source.specs.Calls.{Settled, timed, bare};

use super::Prompt;
use crate::weighing::bring_in;
use frontier::entries::copy_entries;
use lattice::{PartialOrder, Timestamp};
use questions::Refusal;

impl Prompt {
    // Adds the waiting counts to the counts, empties them, and reports the lower edge, which is this
    // reader's frontier.  Tells how many times that has.
    pub fn settle<T: Timestamp + Copy>(
        &mut self,
        frontier: &[T],
        reported: &mut [T],
        counts: &mut [(T, i64)],
        waiting_counts: &[(T, i64)],
        sums: &mut [(T, i64)],
        edge: &mut [T],
    ) -> Result<usize, Refusal>
        ensures { Settled (timed T.PartialOrder.below T.Lattice.joined T.Timestamp.start) T.PartialOrder.value bare result self.old self.new frontier.now reported.old reported.new counts.old counts.new waiting_counts.now sums.old edge.old }
    {
        if !self.are_settle_sized(frontier, reported, counts, waiting_counts, sums, edge) {
            return Err(Refusal::ShortTable);
        }
        let (times, len, added) = (
            self.progress.frontier,
            self.progress.counts,
            self.waiting_counts,
        );
        let stated = &counts[..];
        let (n, m) = bring_in(
            &frontier[0..times],
            &stated[0..len],
            &waiting_counts[0..added],
            sums,
            edge,
        )?;
        copy_entries(sums, counts, n);
        copy_entries(edge, reported, m);
        self.progress.counts = n;
        self.waiting_counts = 0;
        self.reported = m;
        Ok(m)
    }
}
