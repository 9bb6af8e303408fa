// Entries copied between a reader's tables and scratch tables.
ghost use Rattle.std.specs.Prelude.{◌≡◌, take};
ghost use Rattle.progress.specs.Tables.{ProgressSized};

use crate::Lengths;
use capture::StoredProgress;
use frontier::entries::copy_entries;

// Copies what is in use of a reader's progress to other tables.  The tables come one by one, for callers
// that are lent a reader's own to read only.
pub fn copy_progress<T: Copy>(
    lengths: Lengths,
    frontier: &[T],
    counts: &[(T, i64)],
    waiting: &[StoredProgress<T>],
    to_frontier: &mut [T],
    to_counts: &mut [(T, i64)],
    to_waiting: &mut [StoredProgress<T>],
)
    requires { (ProgressSized lengths frontier.now counts.now waiting.now) × (ProgressSized lengths to_frontier.old to_counts.old to_waiting.old) }
    ensures frontier { take lengths.frontier to_frontier.new ≡ take lengths.frontier frontier.now }
    ensures counts { take lengths.counts to_counts.new ≡ take lengths.counts counts.now }
    ensures waiting { take lengths.waiting to_waiting.new ≡ take lengths.waiting waiting.now }
{
    copy_entries(frontier, to_frontier, lengths.frontier);
    copy_entries(counts, to_counts, lengths.counts);
    copy_entries(waiting, to_waiting, lengths.waiting);
}
