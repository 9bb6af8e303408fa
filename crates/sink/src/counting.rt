// Counting recorded changes, in a scratch table.
ghost use Rattle.std.specs.Prelude.{◌≡◌, ◌≤◌, map, length, nat_le};
ghost use Rattle.std.specs.List.{list_all};
ghost use Rattle.frontier.specs.Frontiers.{beyond};
ghost use Rattle.frontier.specs.Counts.{added_all, room};
ghost use Rattle.frontier.specs.Tables.{in_use, Holds, counted};
ghost use Rattle.capture.specs.Sizes.{largest_count, sender_counts, message_changes, reader_counts};
ghost use Rattle.capture.specs.Sender.{told, count_at, raised};
ghost use Rattle.capture.specs.Views.{change_of};

use capture::{COUNTS_SIZE, STATEMENT_COUNTS};
use frontier::entries::copy_entries;
use frontier::{is_beyond, update};
use lattice::{PartialOrder, Same, same_time};

// A sender counts the changes of at most so many times, so that a statement can tell them all.
pub const SENDER_COUNTS: usize = STATEMENT_COUNTS;
// A scratch table for counts has so many entries, as a reader's table has: a record asks for the
// resulting counts before it asks whether they fit the sender's table.
pub const SCRATCH_COUNTS: usize = COUNTS_SIZE;
// A count that is announced is at most this; a sender's own counts are signed.
pub const LARGEST_COUNT: i64 = capture::LARGEST_COUNT as i64;

// Whether a count, a negative one taken as 0, is not too large.
pub(crate) fn is_small(count: i64) -> bool
    ensures { result ≡ nat_le (told count) largest_count }
{
    count <= LARGEST_COUNT
}

// The count of a time, 0 where it has no entry.
fn count_at<T: PartialOrder>(table: &[(T, i64)], time: &T) -> i64
    ensures { result ≡ count_at T.below (map (counted T.value) table.now) (T.value time.now) }
{
    let entry = table.iter().find(|e| same_time(&e.0, time));
    entry.map_or(0, |e| e.1)
}

// Whether the time of every change is beyond the list, as question 3 asks.
pub(crate) fn all_beyond<D: Same, T: PartialOrder, R: Same>(
    list: &[T],
    changes: &[(D, T, R)],
) -> bool
    ensures { result ≡ list_all (λ c. beyond T.PartialOrder.below (map T.PartialOrder.value list.now) c.time) (map (change_of D.Same.value T.PartialOrder.value R.Same.value) changes.now) }
{
    changes.iter().all(|c| is_beyond(list, &c.1))
}

// Whether the count of each change's time is not too large, as question 5 asks.
pub(crate) fn all_small<D: Same, T: PartialOrder, R: Same>(
    table: &[(T, i64)],
    changes: &[(D, T, R)],
) -> bool
    ensures { result ≡ list_all (λ c. nat_le (told (count_at T.PartialOrder.below (map (counted T.PartialOrder.value) table.now) c.time)) largest_count) (map (change_of D.Same.value T.PartialOrder.value R.Same.value) changes.now) }
{
    changes.iter().all(|c| is_small(count_at(table, &c.1)))
}

// Copies the first `len` counts to a scratch table, and counts each change at its time there.  Tells
// how many entries there are then, and how many there were at most on the way.
pub(crate) fn count_changes<D: Same, T: PartialOrder + Copy, R: Same>(
    counts: &[(T, i64)],
    len: usize,
    scratch: &mut [(T, i64)],
    changes: &[(D, T, R)],
) -> (usize, usize)
    requires counts { (len ≤ sender_counts) × (len ≤ length counts.now) }
    requires scratch { reader_counts ≤ length scratch.old }
    requires changes { length changes.now ≤ message_changes }
    ensures after { Holds (counted T.PartialOrder.value) result.0 scratch.new (added_all T.PartialOrder.below (in_use (counted T.PartialOrder.value) len counts.now) (raised (map (change_of D.Same.value T.PartialOrder.value R.Same.value) changes.now))) }
    ensures within { (result.0 ≤ result.1) × (result.0 ≤ reader_counts) }
    ensures room { nat_le result.1 sender_counts ≡ room T.PartialOrder.below sender_counts (in_use (counted T.PartialOrder.value) len counts.now) (raised (map (change_of D.Same.value T.PartialOrder.value R.Same.value) changes.now)) }
{
    copy_entries(counts, scratch, len);
    let mut n = len;
    let mut most = len;
    for c in changes {
        n = update(scratch, n, SCRATCH_COUNTS, c.1, 1).unwrap();
        most = most.max(n);
    }
    (n, most)
}
