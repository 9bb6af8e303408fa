// Queues of messages in stored form.
//
// A queue knows how many messages it has; the table whose first entries they are is handed to each
// call.
ghost use Rattle.std.specs.Prelude.{◌≡◌, ◌-◌, ◌≤◌, [], ◌∷◌, ◌++◌, length, take, drop, nat_lt};
ghost use Rattle.questions.specs.Answers.{Answered};
ghost use Rattle.capture.specs.Sizes.{queue_messages};
ghost use Rattle.capture.specs.Messages.{short};
ghost use Rattle.capture.specs.Posts.{post as post_of};
ghost use Rattle.capture.specs.Views.{message_of};
ghost use Rattle.capture.specs.Stored.{queued};
ghost use Rattle.sink.specs.Pumps.{QueuePumped, WhereRefused};

use crate::pump::offer;
use capture::{Message, StoredMessage, Writer};
use lattice::{PartialOrder, Same, Timestamp};
use questions::Refusal;

// A queue has at most so many messages, and its table at least so many entries.
pub const QUEUE_MESSAGES: usize = 16;

// A queue, by how many messages it has.
#[derive(Drop)]
pub(crate) struct Queue {
    len: usize,
    ghost few: { len ≤ 16 },
}

impl Queue {
    // A queue without messages.
    pub(crate) fn new() -> Queue
        ensures { result.len ≡ 0 }
    {
        Queue { len: 0 }
    }

    // Puts a message last, where there is room for it and it is not too long.
    pub(crate) fn push<'a, D: Same + Copy, T: PartialOrder + Copy, R: Same + Copy>(
        &mut self,
        table: &mut [StoredMessage<D, T, R>],
        item: Message<'a, D, T, R>,
    ) -> Result<(), Refusal>
        requires { queue_messages ≤ length table.old }
        ensures { Answered result
            ((nat_lt (length (queued D.Same.value T.PartialOrder.value R.Same.value self.old.len table.old)) queue_messages, 13) ∷ (short (message_of D.Same.value T.PartialOrder.value R.Same.value item.entry), 2) ∷ [])
            (λ _. queued D.Same.value T.PartialOrder.value R.Same.value self.new.len table.new ≡ queued D.Same.value T.PartialOrder.value R.Same.value self.old.len table.old ++ message_of D.Same.value T.PartialOrder.value R.Same.value item.entry ∷ [])
            ((self.new ≡ self.old) × (table.new ≡ table.old)) }
    {
        if self.len >= QUEUE_MESSAGES {
            return Err(Refusal::FullQueue);
        }
        table[self.len].store(item)?;
        self.len += 1;
        Ok(())
    }

    // Offers the messages to a post, and takes out those that it took.  Tells whether work remains,
    // and the post's wait: a pump answers that pair (a rule of the project).
    pub(crate) fn pump<D: Same + Copy, T: Timestamp + Copy, R: Same + Copy, W: Writer<D, T, R>>(
        &mut self,
        table: &mut [StoredMessage<D, T, R>],
        post: &mut W,
    ) -> Result<(bool, Option<u64>), Refusal>
        ensures pump { QueuePumped (post_of W.Writer.taken W.Writer.ready W.Writer.committed) D.Same.value T.PartialOrder.value R.Same.value self.old.len table.old post.old result self.new.len table.new post.new }
        ensures refused { WhereRefused result ((self.new ≡ self.old) × (table.new ≡ table.old) × (post.new ≡ post.old)) }
    {
        if table.len() < QUEUE_MESSAGES {
            return Err(Refusal::ShortTable);
        }
        let (taken, wait) = offer(&table[..self.len], post);
        remove_first(table, self.len, taken);
        self.len -= taken;
        Ok((self.len > 0 || !post.done(), wait))
    }
}

// Takes the first `n` out of the first `len`; the others move up.
fn remove_first<X>(table: &mut [X], len: usize, n: usize)
    requires { (n ≤ len) × (len ≤ length table.old) }
    ensures { take (len - n) table.new ≡ drop n (take len table.old) }
{
    let part = &mut table[..len];
    part.rotate_left(n);
}
