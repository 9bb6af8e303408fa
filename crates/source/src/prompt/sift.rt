// Sifting changes.
ghost use Rattle.capture.specs.Kinds.{kinds_by};
ghost use Rattle.capture.specs.Views.{change_of};
ghost use Rattle.source.specs.Calls.{Sifted};

use super::Prompt;
use crate::weighing::weigh_changes;
use frontier::entries::{append_entries, copy_entries};
use lattice::{PartialOrder, Same, Timestamp};
use questions::Refusal;

impl Prompt {
    // Takes a message of changes, and ships those that are new: neither behind the heeded frontier nor
    // the same as a pending one.  Tells how many it shipped.
    pub fn sift<D: Same + Copy, T: Timestamp + Copy, R: Same + Copy>(
        &mut self,
        changes: &[(D, T, R)],
        heeded: &[T],
        waiting_counts: &mut [(T, i64)],
        pending: &mut [(D, T, R)],
        shipped: &mut [(D, T, R)],
        new: &mut [(D, T, R)],
        sums: &mut [(T, i64)],
    ) -> Result<usize, Refusal>
        ensures { Sifted (kinds_by D.Same T.Timestamp R.Same) T.PartialOrder.value (change_of D.Same.value T.PartialOrder.value R.Same.value) result changes.now self.old self.new heeded.now waiting_counts.old waiting_counts.new pending.old pending.new shipped.old shipped.new new.old sums.old }
    {
        if !self.are_sift_sized(heeded, waiting_counts, pending, shipped, new, sums) {
            return Err(Refusal::ShortTable);
        }
        let (times, len, kept) = (self.heeded, self.waiting_counts, self.pending);
        let counts = &waiting_counts[..];
        let all = &pending[..];
        let w = weigh_changes(
            changes,
            &heeded[0..times],
            &all[0..kept],
            &counts[0..len],
            new,
            sums,
        )?;
        copy_entries(sums, waiting_counts, w.counts);
        append_entries(new, w.new, pending, kept);
        copy_entries(new, shipped, w.new);
        self.waiting_counts = w.counts;
        self.pending = kept + w.new;
        Ok(w.new)
    }
}
