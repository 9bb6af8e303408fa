// Messages in stored form, one entry of a table to a message.
//
// Whatever an entry holds reads as some message that is not too long, since a row is never longer than its
// places.
ghost use Rattle.std.specs.Prelude.{◌≡◌, true, []};
ghost use Rattle.capture.specs.Messages.{changes, short, short_statement};
ghost use Rattle.capture.specs.Views.{message_of, statement_of};
ghost use Rattle.capture.specs.Rows.{Stores};
ghost use Rattle.capture.specs.Stored.{stored_statement, stored_message};

use crate::message::{MESSAGE_CHANGES, STATEMENT_COUNTS, STATEMENT_TIMES};
use crate::{Message, Progress, Row};
use lattice::{PartialOrder, Same};
use questions::Refusal;

// The changes of a message, in stored form.
pub type StoredUpdates<D, T, R> = Row<(D, T, R), MESSAGE_CHANGES>;

// A statement in stored form.
#[derive_where(Clone, Copy; T: Copy)]
pub struct StoredProgress<T> {
    // the lower list
    pub lower: Row<T, STATEMENT_TIMES>,
    // the upper list
    pub upper: Row<T, STATEMENT_TIMES>,
    // the counts
    pub counts: Row<(T, u32), STATEMENT_COUNTS>,
}

impl<T: PartialOrder + Copy> StoredProgress<T> {
    // A statement with empty lists.
    pub fn new(filler: T) -> StoredProgress<T>
        ensures { stored_statement T.PartialOrder.value result ≡ record { lower = []; upper = []; counts = [] } }
    {
        StoredProgress {
            lower: Row::new(filler),
            upper: Row::new(filler),
            counts: Row::new((filler, 0)),
        }
    }

    // Empties all lists.
    pub fn clear(&mut self)
        ensures { stored_statement T.PartialOrder.value self.new ≡ record { lower = []; upper = []; counts = [] } }
    {
        self.lower.clear();
        self.upper.clear();
        self.counts.clear();
    }

    // The statement.
    pub fn view(&self) -> Progress<'_, T>
        ensures { statement_of T.PartialOrder.value result ≡ stored_statement T.PartialOrder.value self.now }
    {
        Progress {
            lower: self.lower.view(),
            upper: self.upper.view(),
            counts: self.counts.view(),
        }
    }

    // Puts a statement in place of the one that is stored, where it is not too long.
    pub fn store(&mut self, item: Progress<'_, T>) -> Result<(), Refusal>
        ensures { Stores (stored_statement T.PartialOrder.value) short_statement result self.old self.new (statement_of T.PartialOrder.value item.entry) }
    {
        if !item.is_short() {
            return Err(Refusal::LongMessage);
        }
        self.lower.fill(item.lower);
        self.upper.fill(item.upper);
        self.counts.fill(item.counts);
        Ok(())
    }
}

// The sorts of message.
#[derive(Clone, Copy)]
pub enum Sort {
    // changes
    Updates,
    // a statement
    Progress,
}

// A message of either sort in stored form.
//
// An enum of both parts is no plainer: to put changes over a statement, it needs a change to fill places with.
#[derive_where(Clone, Copy; D: Copy, T: Copy, R: Copy)]
pub struct StoredMessage<D, T, R> {
    // its sort; what the part for the other sort holds is left from before
    pub sort: Sort,
    // the changes
    pub updates: StoredUpdates<D, T, R>,
    // the statement
    pub progress: StoredProgress<T>,
}

impl<D: Same + Copy, T: PartialOrder + Copy, R: Same + Copy> StoredMessage<D, T, R> {
    // A message without changes.
    pub fn new(filler: (D, T, R)) -> StoredMessage<D, T, R>
        ensures { stored_message D.Same.value T.PartialOrder.value R.Same.value result ≡ changes [] }
    {
        StoredMessage {
            sort: Sort::Updates,
            updates: Row::new(filler),
            progress: StoredProgress::new(filler.1),
        }
    }

    // The message.
    pub fn view(&self) -> Message<'_, D, T, R>
        ensures { message_of D.Same.value T.PartialOrder.value R.Same.value result ≡ stored_message D.Same.value T.PartialOrder.value R.Same.value self.now }
    {
        match self.sort {
            Sort::Updates => Message::Updates(self.updates.view()),
            Sort::Progress => Message::Progress(self.progress.view()),
        }
    }

    // Puts a message in place of the one that is stored, where it is not too long.
    pub fn store(&mut self, item: Message<'_, D, T, R>) -> Result<(), Refusal>
        ensures { Stores (stored_message D.Same.value T.PartialOrder.value R.Same.value) short result self.old self.new (message_of D.Same.value T.PartialOrder.value R.Same.value item.entry) }
    {
        match item {
            Message::Updates(changes) => {
                self.updates.store(changes)?;
                self.sort = Sort::Updates;
            }
            Message::Progress(statement) => {
                self.progress.store(statement)?;
                self.sort = Sort::Progress;
            }
        }
        Ok(())
    }
}
