// A fresh held reader.
ghost use Rattle.std.specs.Prelude.{◌≡◌, [], ◌∷◌};
ghost use Rattle.questions.specs.Answers.{Answered};
ghost use Rattle.capture.specs.Held.{fresh_held};
ghost use Rattle.capture.specs.Kinds.{kinds_by};
ghost use Rattle.capture.specs.Views.{change_of};
ghost use Rattle.iterator.specs.Readers.{tables, held_in, own_sized, Few};

use super::Held;
use super::sizes::are_own_sized;
use capture::StoredProgress;
use lattice::{PartialOrder, Same, Timestamp};
use progress::Lengths;
use questions::Refusal;

impl Held {
    // A reader that got nothing yet: both its frontiers are the start alone.
    // Its five tables come one by one, since a call asks for no more than it needs: three are only looked at.
    pub fn new<D: Same + Copy, T: Timestamp + Copy, R: Same + Copy>(
        frontier: &mut [T],
        reported: &mut [T],
        counts: &[(T, i64)],
        held: &[(D, T, R)],
        waiting: &[StoredProgress<T>],
    ) -> Result<Held, Refusal>
        ensures { Answered result
            ((own_sized (tables frontier.old reported.old counts.now held.now waiting.now), 1) ∷ [])
            (λ h. (held_in T.PartialOrder.value (change_of D.Same.value T.PartialOrder.value R.Same.value) h (tables frontier.new reported.new counts.now held.now waiting.now) ≡ fresh_held (kinds_by D.Same T.Timestamp R.Same)) × Few h)
            ((frontier.new ≡ frontier.old) × (reported.new ≡ reported.old)) }
    {
        if !are_own_sized(frontier, reported, counts, held, waiting) {
            return Err(Refusal::ShortTable);
        }
        frontier[0] = T::minimum();
        reported[0] = T::minimum();
        Ok(Held {
            progress: Lengths {
                frontier: 1,
                counts: 0,
                waiting: 0,
            },
            reported: 1,
            held: 0,
            drops: 0,
        })
    }
}
