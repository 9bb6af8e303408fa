// The prompt reader: how much of each of its tables is in use.
//
// The tables themselves are handed to each call, and to each only those that it needs: the progress,
// the reported and the heeded frontier, the counts and the waiting counts, the pending changes, and
// the waiting statements.  So they come one by one: no two of them come together to three calls in the
// same way, to be read or to be written.
ghost use Rattle.std.specs.Prelude.{◌≡◌};

use progress::Lengths;

mod heed;
mod note;
mod put_away;
mod settle;
mod sift;
mod sized;
mod start;

pub use note::NoteScratch;

// A reader that gives out every change at once, and none twice.
#[derive(Drop)]
pub struct Prompt {
    // the progress frontier, the counts and the waiting statements
    progress: Lengths,
    // the times of the frontier that it reported last
    reported: usize,
    // the times of the frontier that it heeded last; a change behind that is dropped
    heeded: usize,
    // the changes shipped that are beyond the heeded frontier, so that a repeat is known
    pending: usize,
    // the times whose counts the next settle will change
    waiting_counts: usize,
}

impl Prompt {
    // How many times the reported frontier has.
    pub fn reported(&self) -> usize
        ensures { result ≡ self.now.reported }
    {
        self.reported
    }

    // How many changes are pending.
    pub fn pending(&self) -> usize
        ensures { result ≡ self.now.pending }
    {
        self.pending
    }
}
