// The sender and its pumps.
//
// All tables are lent to each call, which allocates nothing: the first entries of each are in use, and
// the sender is the numbers of these (a rule of the project).
#![tactic(auto)]

mod announcing;
mod counting;
mod pump;
mod queue;
mod sender;

pub use counting::{LARGEST_COUNT, SCRATCH_COUNTS, SENDER_COUNTS};
pub use queue::QUEUE_MESSAGES;
pub use sender::{FinishedSender, OpenSender};
