// Closing a round.
ghost use Rattle.std.specs.Prelude.{◌≡◌, map, length};
ghost use Rattle.capture.specs.Kinds.{kinds_by};
ghost use Rattle.sink.specs.Senders.{sender_of, close_tables, Closed};

use super::{OpenSender, are_sized};
use crate::announcing::{advances, announce, keep_beyond};
use capture::{Message, Progress, STATEMENT_COUNTS, StoredMessage};
use frontier::FRONTIER_SIZE;
use frontier::entries::copy_entries;
use frontier::steps::extend;
use lattice::{Same, Timestamp};
use questions::Refusal;

impl OpenSender {
    // Moves the sender on to the list, reduced to a frontier, and queues the statement that says so.
    pub fn close<D: Same + Copy, T: Timestamp + Copy, R: Same + Copy>(
        &mut self,
        frontier: &mut [T],
        counts: &mut [(T, i64)],
        queue: &mut [StoredMessage<D, T, R>],
        upper: &mut [T],
        announced: &mut [(T, u32)],
        list: &[T],
    ) -> Result<(), Refusal>
        ensures { Closed (kinds_by D.Same T.Timestamp R.Same)
            (close_tables (length frontier.old) (length counts.old) (length queue.old) (length upper.old) (length announced.old))
            (λ t. sender_of D.Same.value T.PartialOrder.value R.Same.value self.old frontier.old counts.old t queue.old)
            result (map T.PartialOrder.value list.now)
            (λ t. sender_of D.Same.value T.PartialOrder.value R.Same.value self.new frontier.new counts.new t queue.new)
            ((self.new ≡ self.old) × (frontier.new ≡ frontier.old) × (counts.new ≡ counts.old) × (queue.new ≡ queue.old)) }
    {
        if !are_sized(frontier, counts, queue)
            || upper.len() < FRONTIER_SIZE
            || announced.len() < STATEMENT_COUNTS
        {
            return Err(Refusal::ShortTable);
        }
        if !advances(&frontier[..self.frontier], list) {
            return Err(Refusal::NoAdvance);
        }
        // a time is behind the new frontier exactly when it is behind the list
        let m = announce(&counts[..self.counts], list, announced)?;
        let n = extend(upper, 0, list)?;
        let statement = Progress {
            lower: &frontier[..self.frontier],
            upper: &upper[..n],
            counts: &announced[..m],
        };
        self.progress.push(queue, Message::Progress(statement))?;
        self.counts = keep_beyond(counts, self.counts, &upper[..n]);
        copy_entries(upper, frontier, n);
        self.frontier = n;
        Ok(())
    }
}
