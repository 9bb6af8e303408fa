// Heeding.
ghost use Rattle.capture.specs.Kinds.{kinds_by};
ghost use Rattle.capture.specs.Views.{change_of};
ghost use Rattle.source.specs.Calls.{Heeded};

use super::Prompt;
use frontier::entries::copy_entries;
use lattice::{PartialOrder, Same, Timestamp};
use progress::keep_beyond;
use questions::Refusal;

impl Prompt {
    // Makes the reported frontier the heeded one, and forgets the pending changes behind it.
    pub fn heed<D: Same + Copy, T: Timestamp + Copy, R: Same + Copy>(
        &mut self,
        reported: &[T],
        heeded: &mut [T],
        pending: &mut [(D, T, R)],
    ) -> Result<(), Refusal>
        ensures { Heeded (kinds_by D.Same T.Timestamp R.Same) T.PartialOrder.value (change_of D.Same.value T.PartialOrder.value R.Same.value) result self.old self.new reported.now heeded.old heeded.new pending.old pending.new }
    {
        if !self.are_heed_sized(reported, heeded, pending) {
            return Err(Refusal::ShortTable);
        }
        let times = self.reported;
        copy_entries(reported, heeded, times);
        self.heeded = times;
        self.pending = keep_beyond(pending, self.pending, &reported[0..times]);
        Ok(())
    }
}
