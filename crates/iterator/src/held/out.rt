// Publishing.
ghost use Rattle.std.specs.Prelude.{◌≡◌, ◌≤◌, map, length};
ghost use Rattle.frontier.specs.Tables.{frontier_size};
ghost use Rattle.capture.specs.Sizes.{reader_changes};
ghost use Rattle.capture.specs.Views.{change_of};
ghost use Rattle.iterator.specs.Intervals.{LetsOut};
ghost use Rattle.iterator.specs.Readers.{after};

use super::Held;
use crate::edges::publish;
use lattice::{PartialOrder, Same};

impl Held {
    // Publishes what lies behind the lower edge, if that has moved, and reports the edge.  The tables come
    // one by one, as to `publish`.
    pub(crate) fn let_out<D: Same + Copy, T: PartialOrder + Copy, R: Same + Copy>(
        &mut self,
        edge: &[T],
        reported: &mut [T],
        held: &mut [(D, T, R)],
        published: &mut [(D, T, R)],
        told: &mut [T],
    ) -> Option<(usize, usize)>
        requires { (length edge.now ≤ frontier_size) × (self.old.reported ≤ frontier_size) × (frontier_size ≤ length reported.old) × (self.old.held ≤ reader_changes) × (reader_changes ≤ length held.old) × (reader_changes ≤ length published.old) × (frontier_size ≤ length told.old) }
        ensures numbers { self.new ≡ after result self.old }
        ensures out { LetsOut T.PartialOrder.below T.PartialOrder.value (change_of D.Same.value T.PartialOrder.value R.Same.value) result (map T.PartialOrder.value edge.now) self.old.reported self.old.held reported.old reported.new held.old held.new published.old published.new told.old told.new }
    {
        let out = publish(
            edge,
            reported,
            self.reported,
            held,
            self.held,
            published,
            told,
        );
        if let Some((n, m)) = out {
            self.held -= n;
            self.reported = m;
        }
        out
    }
}
