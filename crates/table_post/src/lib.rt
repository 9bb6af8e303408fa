// A post in a table, which is lent, since a post allocates nothing (a rule of the project).
#![tactic(auto)]

ghost use Rattle.std.specs.Prelude.{◌≡◌, ◌≤◌, true, ◌&&◌, [], ◌∷◌, map, length, nat_le, nat_lt};
ghost use Rattle.questions.specs.Answers.{Answered};
ghost use Rattle.capture.specs.Messages.{short};
ghost use Rattle.capture.specs.Stored.{stored_message, queued};
ghost use Rattle.table_post.specs.Sizes.{post_messages};

use capture::{Message, StoredMessage, Writer};
use lattice::{PartialOrder, Same, Timestamp};
use questions::Refusal;

// A post takes at most so many messages.
pub const POST_MESSAGES: usize = 64;

// How many milliseconds a message is put off for.
const WAIT: u64 = 100;

// A post in a lent table of messages.
#[derive(Drop)]
pub struct TablePost<'a, D, T, R> {
    // the messages that it took stand first
    table: &'a mut [StoredMessage<D, T, R>],
    // how many it took
    len: usize,
    ghost few: { len ≤ 64 },
    ghost long: { 64 ≤ length table.now },
}

impl<'a, D: Same + Copy, T: PartialOrder + Copy, R: Same + Copy> TablePost<'a, D, T, R> {
    // A post that took nothing yet, over a table that has room for all that it may take.
    pub fn new(table: &'a mut [StoredMessage<D, T, R>]) -> Result<TablePost<'a, D, T, R>, Refusal>
        ensures { Answered result ((nat_le post_messages (length table.old), 1) ∷ []) (λ p. queued D.Same.value T.PartialOrder.value R.Same.value p.len p.table.now ≡ []) (Unit {0}) }
    {
        if table.len() < POST_MESSAGES {
            return Err(Refusal::ShortTable);
        }
        Ok(TablePost { table, len: 0 })
    }

    // The messages that the post took, in order; each shows itself as readers take it by `view`.
    pub fn messages(&self) -> &[StoredMessage<D, T, R>]
        ensures { map (stored_message D.Same.value T.PartialOrder.value R.Same.value) result.now ≡ queued D.Same.value T.PartialOrder.value R.Same.value self.now.len self.now.table.now }
    {
        &self.table[..self.len]
    }
}

impl<'a, D: Same + Copy, T: Timestamp + Copy, R: Same + Copy> Writer<D, T, R>
    for TablePost<'a, D, T, R> {
    ghost taken = { λ p. queued D.Same.value T.PartialOrder.value R.Same.value p.len p.table.now };

    ghost ready = { λ p m. nat_lt p.len post_messages && short m };

    ghost committed = { λ p. true };

    fn poll(&mut self, item: &Message<'_, D, T, R>) -> Option<u64> {
        let n = self.len;
        let table = &mut *self.table;
        if n >= POST_MESSAGES || table[n].store(*item).is_err() {
            return Some(WAIT);
        }
        self.len = n + 1;
        None
    }

    fn done(&self) -> bool {
        true
    }
}
