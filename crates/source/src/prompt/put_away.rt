// Putting a reader away.
ghost use Rattle.capture.specs.Views.{change_of};
ghost use Rattle.source.specs.Calls.{PutAway};

use super::Prompt;
use lattice::{PartialOrder, Same};
use progress::{CHANGES_SIZE, is_sized};
use questions::Refusal;

impl Prompt {
    // Ends the reader, and tells how many changes are pending.  A refusal hands it back.
    pub fn put_away<D: Same, T: PartialOrder, R: Same>(
        self,
        pending: &[(D, T, R)],
    ) -> Result<usize, (Prompt, Refusal)>
        ensures { PutAway T.PartialOrder.value (change_of D.Same.value T.PartialOrder.value R.Same.value) result self pending.now }
    {
        if !is_sized(CHANGES_SIZE, self.pending, pending.len()) {
            return Err((self, Refusal::ShortTable));
        }
        Ok(self.pending)
    }
}
