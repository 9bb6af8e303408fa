// Offering messages to a post.
ghost use Rattle.std.specs.Prelude.{◌≤◌, map, length, drop};
ghost use Rattle.capture.specs.Posts.{post as post_of, Pumped};
ghost use Rattle.capture.specs.Stored.{stored_message};
ghost use Rattle.sink.specs.Pumps.{working, Left};

use capture::{StoredMessage, Writer};
use lattice::{Same, Timestamp};

// Offers messages in order until the post says wait, or none is left.  Tells how many it took, and
// the wait.
pub(crate) fn offer<D: Same + Copy, T: Timestamp + Copy, R: Same + Copy, W: Writer<D, T, R>>(
    messages: &[StoredMessage<D, T, R>],
    post: &mut W,
) -> (usize, Option<u64>)
    ensures within { result.0 ≤ length messages.now }
    ensures left { Left result.1 result.0 (length messages.now) }
    ensures pumped { Pumped (post_of W.Writer.taken W.Writer.ready W.Writer.committed) (map (stored_message D.Same.value T.PartialOrder.value R.Same.value) messages.now) post.old (working result.1 (W.Writer.committed post.new)) result.1 (map (stored_message D.Same.value T.PartialOrder.value R.Same.value) (drop result.0 messages.now)) post.new }
{
    for (i, stored) in messages.iter().enumerate() {
        let message = stored.view();
        if let Some(wait) = post.poll(&message) {
            return (i, Some(wait));
        }
    }
    (messages.len(), None)
}
