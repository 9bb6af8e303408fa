// The sender, open and finished: how much of each of its tables is in use.
//
// The tables themselves are handed to each call: a frontier, counts, and two queues of messages.  They
// stand side by side in each call, since a struct of them would ask for writing what a call only reads.
ghost use Rattle.std.specs.Prelude.{◌≡◌, ◌≤◌, length};
ghost use Rattle.std.specs.Bool.{OnTrue};
ghost use Rattle.frontier.specs.Tables.{frontier_size};
ghost use Rattle.capture.specs.Sizes.{sender_counts, queue_messages};
ghost use Rattle.sink.specs.Tables.{lent_tables};

mod close;
mod finish;
mod finished_pumps;
mod open;
mod open_pumps;
mod record;

use crate::counting::SENDER_COUNTS;
use crate::queue::{QUEUE_MESSAGES, Queue};
use frontier::FRONTIER_SIZE;

// A sender that records changes and closes rounds.
#[derive(Drop)]
pub struct OpenSender {
    // how many times the frontier has
    frontier: usize,
    // how many times have changes that are not announced yet
    counts: usize,
    // the messages of changes that are queued
    updates: Queue,
    // the statements that are queued
    progress: Queue,
    ghost few_times: { frontier ≤ 32 },
    ghost few_counts: { counts ≤ 256 },
}

// A sender that closed the empty frontier: it has nothing more to say, and its queues are left to
// be pumped.
#[derive(Drop)]
pub struct FinishedSender {
    // the messages of changes that are queued
    updates: Queue,
    // the statements that are queued
    progress: Queue,
}

// Whether a frontier, counts and a queue have their sizes, as question 1 asks.
fn are_sized<T, M>(frontier: &[T], counts: &[(T, i64)], queue: &[M]) -> bool
    ensures value { result ≡ lent_tables (length frontier.now) (length counts.now) (length queue.now) }
    ensures long { OnTrue result ((frontier_size ≤ length frontier.now) × (sender_counts ≤ length counts.now) × (queue_messages ≤ length queue.now)) }
{
    frontier.len() >= FRONTIER_SIZE
        && counts.len() >= SENDER_COUNTS
        && queue.len() >= QUEUE_MESSAGES
}
