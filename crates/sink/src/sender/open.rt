// Opening a sender.
ghost use Rattle.std.specs.Prelude.{◌≡◌, [], ◌∷◌, length};
ghost use Rattle.questions.specs.Answers.{Answered};
ghost use Rattle.capture.specs.Kinds.{kinds_by};
ghost use Rattle.capture.specs.Sender.{fresh_sender};
ghost use Rattle.sink.specs.Senders.{sender_of, open_tables};

use super::{OpenSender, are_sized};
use crate::queue::{QUEUE_MESSAGES, Queue};
use capture::StoredMessage;
use lattice::{Same, Timestamp};
use questions::Refusal;

impl OpenSender {
    // A sender that recorded nothing yet, over a frontier, counts, a queue of changes and a queue of
    // statements.
    pub fn new<D: Same + Copy, T: Timestamp + Copy, R: Same + Copy>(
        frontier: &mut [T],
        counts: &[(T, i64)],
        updates: &[StoredMessage<D, T, R>],
        progress: &[StoredMessage<D, T, R>],
    ) -> Result<OpenSender, Refusal>
        ensures { Answered result
            ((open_tables (length frontier.old) (length counts.now) (length updates.now) (length progress.now), 1) ∷ [])
            (λ s. sender_of D.Same.value T.PartialOrder.value R.Same.value s frontier.new counts.now updates.now progress.now ≡ fresh_sender (kinds_by D.Same T.Timestamp R.Same))
            (frontier.new ≡ frontier.old) }
    {
        if !are_sized(frontier, counts, updates) || progress.len() < QUEUE_MESSAGES {
            return Err(Refusal::ShortTable);
        }
        frontier[0] = T::minimum();
        Ok(OpenSender {
            frontier: 1,
            counts: 0,
            updates: Queue::new(),
            progress: Queue::new(),
        })
    }
}
