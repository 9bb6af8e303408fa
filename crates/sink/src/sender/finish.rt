// Finishing.
ghost use Rattle.std.specs.Prelude.{◌≡◌, [], ◌∷◌, ◌++◌, length};
ghost use Rattle.questions.specs.Answers.{Answered};
ghost use Rattle.capture.specs.Kinds.{kinds_by};
ghost use Rattle.capture.specs.Messages.{statement};
ghost use Rattle.capture.specs.Sender.{finish_asks, stating};
ghost use Rattle.capture.specs.Stored.{queued};
ghost use Rattle.sink.specs.Senders.{sender_of, finished_of, finish_tables, Finished};

use super::{FinishedSender, OpenSender, are_sized};
use crate::announcing::announce;
use capture::{Message, Progress, STATEMENT_COUNTS, StoredMessage};
use lattice::{Same, Timestamp};
use questions::Refusal;

impl OpenSender {
    // Queues the statement that leads to the empty frontier, with all that is not announced yet.
    fn state_rest<D: Same + Copy, T: Timestamp + Copy, R: Same + Copy>(
        &mut self,
        frontier: &[T],
        counts: &[(T, i64)],
        queue: &mut [StoredMessage<D, T, R>],
        announced: &mut [(T, u32)],
    ) -> Result<(), Refusal>
        ensures answer { Answered result
            (finish_asks (kinds_by D.Same T.Timestamp R.Same) (finish_tables (length frontier.now) (length counts.now) (length queue.old) (length announced.old))
            (sender_of D.Same.value T.PartialOrder.value R.Same.value self.old frontier.now counts.now [] queue.old))
            (λ _. queued D.Same.value T.PartialOrder.value R.Same.value self.new.progress.len queue.new ≡ queued D.Same.value T.PartialOrder.value R.Same.value self.old.progress.len queue.old ++ statement (stating (kinds_by D.Same T.Timestamp R.Same) [] (sender_of D.Same.value T.PartialOrder.value R.Same.value self.old frontier.now counts.now [] queue.old)) ∷ [])
            ((self.new ≡ self.old) × (queue.new ≡ queue.old)) }
        ensures others { self.new.updates ≡ self.old.updates }
    {
        if !are_sized(frontier, counts, queue) || announced.len() < STATEMENT_COUNTS {
            return Err(Refusal::ShortTable);
        }
        let n = announce(&counts[..self.counts], &[], announced)?;
        let statement = Progress {
            lower: &frontier[..self.frontier],
            upper: &[],
            counts: &announced[..n],
        };
        self.progress.push(queue, Message::Progress(statement))
    }

    // Moves the sender on to the empty frontier, and queues the statement that says so.  A refusal
    // hands the open sender back.
    pub fn finish<D: Same + Copy, T: Timestamp + Copy, R: Same + Copy>(
        mut self,
        frontier: &[T],
        counts: &[(T, i64)],
        queue: &mut [StoredMessage<D, T, R>],
        announced: &mut [(T, u32)],
    ) -> Result<FinishedSender, (OpenSender, Refusal)>
        ensures { Finished (kinds_by D.Same T.Timestamp R.Same)
            (finish_tables (length frontier.now) (length counts.now) (length queue.old) (length announced.old))
            (λ t. sender_of D.Same.value T.PartialOrder.value R.Same.value self frontier.now counts.now t queue.old)
            result (λ f t. finished_of D.Same.value T.PartialOrder.value R.Same.value f t queue.new)
            (λ s. (s ≡ self) × (queue.new ≡ queue.old)) }
    {
        match self.state_rest(frontier, counts, queue, announced) {
            Ok(()) => Ok(FinishedSender {
                updates: self.updates,
                progress: self.progress,
            }),
            Err(refusal) => Err((self, refusal)),
        }
    }
}
