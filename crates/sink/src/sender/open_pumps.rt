// Pumping an open sender's queues into its posts: each call hands on to its queue, as those of a
// finished sender do, which is a type of its own.
ghost use Rattle.std.specs.Prelude.{◌≡◌};
ghost use Rattle.capture.specs.Posts.{post as post_of};
ghost use Rattle.sink.specs.Pumps.{QueuePumped, WhereRefused};

use super::OpenSender;
use capture::{StoredMessage, Writer};
use lattice::{Same, Timestamp};
use questions::Refusal;

impl OpenSender {
    // Offers the queued changes to their post.  Tells whether work remains, and the post's wait.
    #[tactic(auto, using(crate::proofs::Pumping::updates_refused))]
    pub fn pump_updates<D: Same + Copy, T: Timestamp + Copy, R: Same + Copy, W: Writer<D, T, R>>(
        &mut self,
        queue: &mut [StoredMessage<D, T, R>],
        post: &mut W,
    ) -> Result<(bool, Option<u64>), Refusal>
        ensures pump { QueuePumped (post_of W.Writer.taken W.Writer.ready W.Writer.committed) D.Same.value T.PartialOrder.value R.Same.value self.old.updates.len queue.old post.old result self.new.updates.len queue.new post.new }
        ensures others { (self.new.frontier ≡ self.old.frontier) × (self.new.counts ≡ self.old.counts) × (self.new.progress ≡ self.old.progress) }
        ensures refused { WhereRefused result ((self.new ≡ self.old) × (queue.new ≡ queue.old) × (post.new ≡ post.old)) }
    {
        self.updates.pump(queue, post)
    }

    // Offers the queued statements to their post.  Tells whether work remains, and the post's wait.
    #[tactic(auto, using(crate::proofs::Pumping::progress_refused))]
    pub fn pump_progress<D: Same + Copy, T: Timestamp + Copy, R: Same + Copy, W: Writer<D, T, R>>(
        &mut self,
        queue: &mut [StoredMessage<D, T, R>],
        post: &mut W,
    ) -> Result<(bool, Option<u64>), Refusal>
        ensures pump { QueuePumped (post_of W.Writer.taken W.Writer.ready W.Writer.committed) D.Same.value T.PartialOrder.value R.Same.value self.old.progress.len queue.old post.old result self.new.progress.len queue.new post.new }
        ensures others { (self.new.frontier ≡ self.old.frontier) × (self.new.counts ≡ self.old.counts) × (self.new.updates ≡ self.old.updates) }
        ensures refused { WhereRefused result ((self.new ≡ self.old) × (queue.new ≡ queue.old) × (post.new ≡ post.old)) }
    {
        self.progress.pump(queue, post)
    }
}
