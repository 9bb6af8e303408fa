// What a message's changes would make of a reader, found out in scratch tables.
ghost use Rattle.std.specs.Prelude.{◌≤◌, length};
ghost use Rattle.capture.specs.Kinds.{kinds_by};
ghost use Rattle.capture.specs.Sizes.{reader_changes, reader_counts};
ghost use Rattle.capture.specs.Views.{change_of};
ghost use Rattle.progress.specs.Weighing.{FreshWeighed};

use crate::{CHANGES_SIZE, lower_counts, take_fresh};
use frontier::entries::copy_entries;
use lattice::{Same, Timestamp};
use questions::Refusal;

// How much of each scratch table is in use when changes have been weighed.
#[derive(Clone, Copy)]
pub struct Weighed {
    // the changes that are new
    pub new: usize,
    // the counts, lowered by the new changes
    pub counts: usize,
}

// Finds out which changes are new to a reader by its frontier and the changes that it keeps, and what
// they leave of its counts.  Where it refuses, what it wrote into the scratch tables stays there.
pub fn weigh_fresh<D: Same + Copy, T: Timestamp + Copy, R: Same + Copy>(
    changes: &[(D, T, R)],
    frontier: &[T],
    kept: &[(D, T, R)],
    counts: &[(T, i64)],
    new: &mut [(D, T, R)],
    sums: &mut [(T, i64)],
) -> Result<Weighed, Refusal>
    requires { (length changes.now ≤ length new.old) × (length kept.now ≤ reader_changes) × (length counts.now ≤ reader_counts) × (reader_counts ≤ length sums.old) }
    ensures { FreshWeighed (kinds_by D.Same T.Timestamp R.Same) T.PartialOrder.value (change_of D.Same.value T.PartialOrder.value R.Same.value) result changes.now frontier.now kept.now counts.now new.new sums.new }
{
    let n = take_fresh(new, changes, frontier, kept);
    let room = CHANGES_SIZE - kept.len();
    if n > room {
        return Err(Refusal::ManyChanges);
    }
    let len = counts.len();
    copy_entries(counts, sums, len);
    let fresh = &new[..];
    let m = lower_counts(sums, len, &fresh[0..n])?;
    Ok(Weighed { new: n, counts: m })
}
