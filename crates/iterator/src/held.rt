// The held reader, which holds changes back until its frontier is past them.
//
// Its tables are lent to each call, with two that the call answers in and those that it works in.
ghost use Rattle.std.specs.Prelude.{◌≡◌};

use capture::StoredProgress;
use progress::Lengths;

mod changes;
mod feed;
mod feeding;
mod fresh;
mod out;
mod sizes;
mod statement;

// How much of each of the reader's tables is in use, and its tally.
#[derive(Drop)]
pub struct Held {
    // the progress frontier, the counts and the waiting statements
    progress: Lengths,
    // the times of the frontier that it reported last
    reported: usize,
    // the changes held
    held: usize,
    // how many changes were dropped; the tally stops at its largest number
    drops: u64,
}

// The tables that a reader stands in, but for the waiting statements.  Those come on their own: from a
// slice inside a struct the size of a stored statement of any times is not known, as calls on it ask.
#[derive(Drop)]
pub struct HeldTables<'a, D, T, R> {
    // the progress frontier
    pub frontier: &'a mut [T],
    // the frontier that it reported last
    pub reported: &'a mut [T],
    // the counts
    pub counts: &'a mut [(T, i64)],
    // the changes held
    pub held: &'a mut [(D, T, R)],
}

// The tables that feed answers in.
#[derive(Drop)]
pub struct HeldAnswer<'a, D, T, R> {
    // for the changes that are published
    pub published: &'a mut [(D, T, R)],
    // for the times of the frontier that is told
    pub told: &'a mut [T],
}

// Tables that feed works in: what is left in them means nothing.
#[derive(Drop)]
pub struct HeldScratch<'a, D, T, R> {
    // for the progress frontier
    pub frontier: &'a mut [T],
    // for the counts
    pub counts: &'a mut [(T, i64)],
    // for the waiting statements
    pub waiting: &'a mut [StoredProgress<T>],
    // for the lower edge
    pub edge: &'a mut [T],
    // for the changes that are new
    pub changes: &'a mut [(D, T, R)],
}

impl Held {
    // How many changes were dropped.
    pub fn drops(&self) -> u64
        ensures { result ≡ self.now.drops }
    {
        self.drops
    }

    // How many changes are held.
    pub fn held(&self) -> usize
        ensures { result ≡ self.now.held }
    {
        self.held
    }

    // How many times the frontier has that it reported last.
    pub fn reported(&self) -> usize
        ensures { result ≡ self.now.reported }
    {
        self.reported
    }
}
