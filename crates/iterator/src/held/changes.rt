// Taking in changes.
ghost use Rattle.std.specs.Prelude.{◌≤◌, map, length};
ghost use Rattle.frontier.specs.Tables.{frontier_size};
ghost use Rattle.capture.specs.Messages.{changes as changes_of};
ghost use Rattle.capture.specs.Kinds.{kinds_by};
ghost use Rattle.capture.specs.Sizes.{reader_changes, reader_counts};
ghost use Rattle.capture.specs.Views.{change_of};
ghost use Rattle.iterator.specs.Readers.{held_in};

use super::feeding::Feeding;
use capture::MESSAGE_CHANGES;
use frontier::entries::{append_entries, copy_entries};
use lattice::{PartialOrder, Same, Timestamp};
use progress::{Weighed, lower_edge, weigh_fresh};
use questions::Refusal;

impl<'a, D: Same + Copy, T: Timestamp + Copy, R: Same + Copy> Feeding<'a, D, T, R> {
    ghost use Rattle.iterator.specs.Feeding.{own, Ready, WeighsChanges, Takes, Rests};

    // Finds out what changes would make of the reader: which are new, the counts that they lower, and
    // the lower edge then.  Tells how much of each scratch table is in use.
    fn weigh_changes(
        &self,
        changes: &[(D, T, R)],
        new: &mut [(D, T, R)],
        sums: &mut [(T, i64)],
        edge: &mut [T],
    ) -> Result<(Weighed, usize), Refusal>
        requires reader { Ready self.now }
        requires scratch { (reader_changes ≤ length new.old) × (reader_counts ≤ length sums.old) × (frontier_size ≤ length edge.old) }
        ensures { WeighsChanges (kinds_by D.Same T.Timestamp R.Same) T.PartialOrder.value (change_of D.Same.value T.PartialOrder.value R.Same.value) result (map (change_of D.Same.value T.PartialOrder.value R.Same.value) changes.now) (held_in T.PartialOrder.value (change_of D.Same.value T.PartialOrder.value R.Same.value) self.now.reader.now (own self.now)) new.new sums.new edge.new }
    {
        if changes.len() > MESSAGE_CHANGES {
            return Err(Refusal::LongMessage);
        }
        let (times, seen) = (self.reader.progress.frontier, self.reader.reported);
        let (len, kept) = (self.reader.progress.counts, self.reader.held);
        let w = weigh_fresh(
            changes,
            &self.reported[0..seen],
            &self.held[0..kept],
            &self.counts[0..len],
            new,
            sums,
        )?;
        let left = &sums[..];
        let end = lower_edge(&self.frontier[0..times], &left[0..w.counts], edge)?;
        Ok((w, end))
    }

    // Takes in a message of changes.  Whether every question is answered yes is found out in scratch
    // tables, before anything of the reader is written.
    pub(super) fn take_changes(
        self,
        changes: &[(D, T, R)],
        new: &mut [(D, T, R)],
        sums: &mut [(T, i64)],
        edge: &mut [T],
    ) -> Result<Option<(usize, usize)>, Refusal>
        requires reader { Ready self }
        requires scratch { (reader_changes ≤ length new.old) × (reader_counts ≤ length sums.old) × (frontier_size ≤ length edge.old) }
        ensures takes { Takes (kinds_by D.Same T.Timestamp R.Same) T.PartialOrder.value (change_of D.Same.value T.PartialOrder.value R.Same.value) (changes_of (map (change_of D.Same.value T.PartialOrder.value R.Same.value) changes.now)) result self.entry self.exit }
        ensures rests { Rests self.entry self.exit }
    {
        let (w, end) = self.weigh_changes(changes, new, sums, edge)?;
        let Feeding {
            reader,
            reported,
            counts,
            held,
            published,
            told,
            ..
        } = self;
        let kept = reader.held;
        copy_entries(sums, counts, w.counts);
        append_entries(new, w.new, held, kept);
        reader.progress.counts = w.counts;
        reader.held = kept + w.new;
        let dropped = changes.len() - w.new;
        reader.drops = reader.drops.saturating_add(dropped as u64);
        Ok(reader.let_out(&edge[0..end], reported, held, published, told))
    }
}
