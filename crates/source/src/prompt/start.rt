// Starting a reader.
ghost use Rattle.capture.specs.Kinds.{kinds_by};
ghost use Rattle.capture.specs.Views.{change_of};
ghost use Rattle.source.specs.Calls.{Started};

use super::Prompt;
use super::sized::are_new_sized;
use capture::StoredProgress;
use lattice::{PartialOrder, Same, Timestamp};
use progress::Lengths;
use questions::Refusal;

impl Prompt {
    // A reader that got nothing yet, over its tables: the start is written into the three frontiers.
    pub fn new<D: Same + Copy, T: Timestamp + Copy, R: Same + Copy>(
        frontier: &mut [T],
        reported: &mut [T],
        heeded: &mut [T],
        counts: &[(T, i64)],
        waiting_counts: &[(T, i64)],
        pending: &[(D, T, R)],
        waiting: &[StoredProgress<T>],
    ) -> Result<Prompt, Refusal>
        ensures { Started (kinds_by D.Same T.Timestamp R.Same) T.PartialOrder.value (change_of D.Same.value T.PartialOrder.value R.Same.value) result frontier.old frontier.new reported.old reported.new heeded.old heeded.new counts.now waiting_counts.now pending.now waiting.now }
    {
        if !are_new_sized(
            frontier,
            reported,
            heeded,
            counts,
            waiting_counts,
            pending,
            waiting,
        ) {
            return Err(Refusal::ShortTable);
        }
        frontier[0] = T::minimum();
        reported[0] = T::minimum();
        heeded[0] = T::minimum();
        Ok(Prompt {
            progress: Lengths {
                frontier: 1,
                counts: 0,
                waiting: 0,
            },
            reported: 1,
            heeded: 1,
            pending: 0,
            waiting_counts: 0,
        })
    }
}
