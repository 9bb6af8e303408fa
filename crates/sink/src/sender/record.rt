// Recording changes.
ghost use Rattle.std.specs.Prelude.{◌≡◌, map, length};
ghost use Rattle.capture.specs.Kinds.{kinds_by};
ghost use Rattle.capture.specs.Views.{change_of};
ghost use Rattle.sink.specs.Senders.{sender_of, record_tables, Recorded};

use super::{OpenSender, are_sized};
use crate::counting::{SCRATCH_COUNTS, SENDER_COUNTS, all_beyond, all_small, count_changes};
use capture::{Message, StoredMessage};
use frontier::entries::copy_entries;
use lattice::{Same, Timestamp};
use questions::Refusal;

impl OpenSender {
    // Queues a message of changes, and counts their times.
    pub fn record<D: Same + Copy, T: Timestamp + Copy, R: Same + Copy>(
        &mut self,
        frontier: &[T],
        counts: &mut [(T, i64)],
        queue: &mut [StoredMessage<D, T, R>],
        scratch: &mut [(T, i64)],
        changes: &[(D, T, R)],
    ) -> Result<(), Refusal>
        ensures { Recorded (kinds_by D.Same T.Timestamp R.Same)
            (record_tables (length frontier.now) (length counts.old) (length queue.old) (length scratch.old))
            (λ t. sender_of D.Same.value T.PartialOrder.value R.Same.value self.old frontier.now counts.old queue.old t)
            result (map (change_of D.Same.value T.PartialOrder.value R.Same.value) changes.now)
            (λ t. sender_of D.Same.value T.PartialOrder.value R.Same.value self.new frontier.now counts.new queue.new t)
            ((self.new ≡ self.old) × (counts.new ≡ counts.old) × (queue.new ≡ queue.old)) }
    {
        if !are_sized(frontier, counts, queue) || scratch.len() < SCRATCH_COUNTS {
            return Err(Refusal::ShortTable);
        }
        let message = Message::Updates(changes);
        if !message.is_short() {
            return Err(Refusal::LongMessage);
        }
        if !all_beyond(&frontier[..self.frontier], changes) {
            return Err(Refusal::BehindFrontier);
        }
        let (n, most) = count_changes(counts, self.counts, scratch, changes);
        if !all_small(&scratch[..n], changes) {
            return Err(Refusal::LargeCount);
        }
        if most > SENDER_COUNTS {
            return Err(Refusal::ManyCounts);
        }
        self.updates.push(queue, message)?;
        copy_entries(scratch, counts, n);
        self.counts = n;
        Ok(())
    }
}
