// Messages as views over lent slices, of any length.
ghost use Rattle.std.specs.Prelude.{◌≡◌};
ghost use Rattle.capture.specs.Messages.{short, short_statement};
ghost use Rattle.capture.specs.Views.{message_of, statement_of};

use lattice::{PartialOrder, Same};

// A message that is not too long has at most so many changes,
pub const MESSAGE_CHANGES: usize = 64;
// so many lower times and so many upper ones,
pub const STATEMENT_TIMES: usize = 32;
// and so many counts,
pub const STATEMENT_COUNTS: usize = 256;
// each of them at most this.
pub const LARGEST_COUNT: u32 = 1_000_000;

// A message of the protocol.
#[derive_where(Clone, Copy)]
pub enum Message<'a, D, T, R> {
    // Changes that are certain to occur: the data, the time and the amount of each.
    Updates(&'a [(D, T, R)]),
    // A statement about how many changes occur.
    Progress(Progress<'a, T>),
}

// A statement about how many distinct changes occur at the times beyond `lower` and behind `upper`.
#[derive_where(Clone, Copy)]
pub struct Progress<'a, T> {
    // where the statement begins
    pub lower: &'a [T],
    // where it ends
    pub upper: &'a [T],
    // how many changes occur at a time; a time that is not listed has none
    pub counts: &'a [(T, u32)],
}

impl<'a, D: Same, T: PartialOrder, R: Same> Message<'a, D, T, R> {
    // Whether the message is not too long, as question 2 asks.
    pub fn is_short(self) -> bool
        ensures { result ≡ short (message_of D.Same.value T.PartialOrder.value R.Same.value self.entry) }
    {
        match self {
            Message::Updates(changes) => changes.len() <= MESSAGE_CHANGES,
            Message::Progress(statement) => statement.is_short(),
        }
    }
}

impl<'a, T: PartialOrder> Progress<'a, T> {
    // Whether none of the statement's lists is too long, as question 2 asks.
    pub fn is_short(self) -> bool
        ensures { result ≡ short_statement (statement_of T.PartialOrder.value self.entry) }
    {
        self.lower.len() <= STATEMENT_TIMES
            && self.upper.len() <= STATEMENT_TIMES
            && self.counts.len() <= STATEMENT_COUNTS
    }
}
