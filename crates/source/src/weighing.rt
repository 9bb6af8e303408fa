// What a message of changes or a settle would make of a reader, found out in scratch tables.
//
// Callers hand the parts of the reader's tables that are in use, and see that they are no longer than
// the tables' sizes.  Where a step refuses, what it wrote into the scratch tables stays there.
ghost use Rattle.std.specs.Prelude.{◌≤◌, length};
ghost use Rattle.frontier.specs.Tables.{frontier_size};
ghost use Rattle.capture.specs.Kinds.{kinds_by};
ghost use Rattle.capture.specs.Sizes.{reader_changes, reader_counts};
ghost use Rattle.capture.specs.Views.{change_of};
ghost use Rattle.source.specs.Weighing.{ChangesWeighed, Brought};

use crate::disputes::is_undisputed;
use capture::MESSAGE_CHANGES;
use frontier::entries::copy_entries;
use frontier::steps;
use lattice::{PartialOrder, Same, Timestamp};
use progress::{COUNTS_SIZE, Weighed, lower_edge, weigh_fresh};
use questions::Refusal;

// Finds out which changes are new to a reader, and what waiting counts they leave.  Tells how many
// there are of each.
pub(crate) fn weigh_changes<D: Same + Copy, T: Timestamp + Copy, R: Same + Copy>(
    changes: &[(D, T, R)],
    heeded: &[T],
    pending: &[(D, T, R)],
    waiting_counts: &[(T, i64)],
    new: &mut [(D, T, R)],
    sums: &mut [(T, i64)],
) -> Result<Weighed, Refusal>
    requires { (length pending.now ≤ reader_changes) × (length waiting_counts.now ≤ reader_counts) × (reader_changes ≤ length new.old) × (reader_counts ≤ length sums.old) }
    ensures { ChangesWeighed (kinds_by D.Same T.Timestamp R.Same) T.PartialOrder.value (change_of D.Same.value T.PartialOrder.value R.Same.value) result changes.now heeded.now pending.now waiting_counts.now new.new sums.new }
{
    if changes.len() > MESSAGE_CHANGES {
        return Err(Refusal::LongMessage);
    }
    if !is_undisputed(changes, heeded, pending) {
        return Err(Refusal::OtherAmount);
    }
    weigh_fresh(changes, heeded, pending, waiting_counts, new, sums)
}

// Makes the counts with the waiting ones brought in, and the lower edge then.  Tells how many counts
// and times these are.
pub(crate) fn bring_in<T: PartialOrder + Copy>(
    frontier: &[T],
    counts: &[(T, i64)],
    waiting_counts: &[(T, i64)],
    sums: &mut [(T, i64)],
    edge: &mut [T],
) -> Result<(usize, usize), Refusal>
    requires { (length frontier.now ≤ frontier_size) × (length counts.now ≤ reader_counts) × (reader_counts ≤ length sums.old) × (frontier_size ≤ length edge.old) }
    ensures { Brought T.below T.value result frontier.now counts.now waiting_counts.now sums.new edge.new }
{
    let len = counts.len();
    copy_entries(counts, sums, len);
    let added = waiting_counts.iter().copied();
    let n = steps::update_all(sums, len, COUNTS_SIZE, added)?;
    let made = &sums[..];
    let m = lower_edge(frontier, &made[0..n], edge)?;
    Ok((n, m))
}
