// Posts: where the messages of a sender go.
ghost use Rattle.std.specs.Prelude.{◌≡◌, Bool, List};
ghost use Rattle.capture.specs.Messages.{Message as Meant};
ghost use Rattle.capture.specs.Views.{message_of};
ghost use Rattle.capture.specs.Posts.{Polled};

use crate::Message;
use lattice::{PartialOrder, Same, Timestamp};

// A post takes messages, or asks to be offered them again later.
pub trait Writer<D: Same, T: Timestamp, R: Same>: Sized {
    // the messages that it took, in order
    ghost taken: { Self → List (Meant (D.Value) (T.Value) (R.Value)) };

    // whether it would take the message now
    ghost ready: { Self → Meant (D.Value) (T.Value) (R.Value) → Bool };

    // whether all that it took is committed
    ghost committed: { Self → Bool };

    // Offers a message: `None` where it was taken, else how many milliseconds to wait before the next offer.
    // The `Option` is the Rust's: the project keeps the names and the answers of the calls that the Rust has.
    fn poll(&mut self, item: &Message<'_, D, T, R>) -> Option<u64>
        ensures { Polled result (ready self.old) (taken self.old) (message_of D.Same.value T.PartialOrder.value R.Same.value item.now) (taken self.new) };

    // Whether all that it took is committed, so that the post can be let go.
    fn done(&self) -> bool
        ensures { result ≡ committed self.now };
}
