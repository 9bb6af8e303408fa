// The protocol by which changes travel from one sender to any number of readers.
//
// What every call means, and the law that all runs keep, is laid down in `specs`; here are the
// messages, the form in which they lie in tables, and the posts that take them.
#![tactic(auto)]

mod law;
mod message;
mod row;
mod stored;
mod writer;

pub use law::{law_of_runs, messages_of_runs, sample_run, worked_deliveries};
pub use message::{
    LARGEST_COUNT, MESSAGE_CHANGES, Message, Progress, STATEMENT_COUNTS, STATEMENT_TIMES,
};
pub use row::Row;
pub use stored::{Sort, StoredMessage, StoredProgress, StoredUpdates};
pub use writer::Writer;

// The entries that a table for a reader's counts has at least, and the counts that it has at most.
pub const COUNTS_SIZE: usize = 1024;
