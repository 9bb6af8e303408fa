// Feed, the call of a held reader.
ghost use Rattle.capture.specs.Kinds.{kinds_by};
ghost use Rattle.capture.specs.Views.{change_of, message_of};
ghost use Rattle.iterator.specs.Readers.{lent, left, all_sized, Fed};

use super::feeding::Feeding;
use super::{Held, HeldAnswer, HeldScratch, HeldTables};
use capture::{Message, StoredProgress};
use lattice::{PartialOrder, Same, Timestamp};
use questions::Refusal;

impl Held {
    // Takes one message.  Where the reader's frontier moved, tells how many changes are published and
    // how many times the new frontier has; these stand first in the answer tables.
    pub fn feed<D: Same + Copy, T: Timestamp + Copy, R: Same + Copy>(
        &mut self,
        message: Message<'_, D, T, R>,
        tables: HeldTables<'_, D, T, R>,
        waiting: &mut [StoredProgress<T>],
        answer: HeldAnswer<'_, D, T, R>,
        scratch: HeldScratch<'_, D, T, R>,
    ) -> Result<Option<(usize, usize)>, Refusal>
        ensures { Fed T.PartialOrder.value (change_of D.Same.value T.PartialOrder.value R.Same.value) (kinds_by D.Same T.Timestamp R.Same)
            (all_sized self.old (lent tables.entry waiting.old) answer.entry.published.now answer.entry.told.now scratch.entry.frontier.now scratch.entry.counts.now scratch.entry.waiting.now scratch.entry.edge.now scratch.entry.changes.now)
            (message_of D.Same.value T.PartialOrder.value R.Same.value message.entry) result
            self.old (lent tables.entry waiting.old) self.new (left tables.exit waiting.new)
            answer.entry.published.now answer.exit.0.now answer.entry.told.now answer.exit.1.0.now }
    {
        if !self.are_all_sized(&tables, waiting, &answer, &scratch) {
            return Err(Refusal::ShortTable);
        }
        let HeldTables {
            frontier,
            reported,
            counts,
            held,
        } = tables;
        let HeldAnswer { published, told } = answer;
        let HeldScratch {
            frontier: times,
            counts: sums,
            waiting: statements,
            edge,
            changes: new,
        } = scratch;
        let feeding = Feeding {
            reader: self,
            frontier,
            reported,
            counts,
            held,
            waiting,
            published,
            told,
        };
        match message {
            Message::Updates(changes) => feeding.take_changes(changes, new, sums, edge),
            Message::Progress(statement) => feeding.take_statement(
                statement, times, sums, statements, edge,
            ),
        }
    }
}
