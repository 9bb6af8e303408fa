// What lies behind the lower edge is published, and the edge reported.
ghost use Rattle.std.specs.Prelude.{◌≡◌, ◌≤◌, map, length, drop};
ghost use Rattle.frontier.specs.Tables.{Holds, frontier_size};
ghost use Rattle.capture.specs.Messages.{those_behind};
ghost use Rattle.capture.specs.Sizes.{reader_changes};
ghost use Rattle.capture.specs.Views.{change_of};
ghost use Rattle.iterator.specs.Intervals.{LetsOut};

use frontier::entries::copy_entries;
use frontier::{antichain_equal, is_beyond};
use lattice::{PartialOrder, Same};
use progress::keep_beyond;

// Copies the changes behind the frontier to the front of a table, in their order, and tells how many
// they are; entries past those are left alone.  The place is counted here, since after a chain that
// writes through its closure nothing is known of the table.
pub(crate) fn copy_behind<D: Same + Copy, T: PartialOrder + Copy, R: Same + Copy>(
    changes: &[(D, T, R)],
    frontier: &[T],
    table: &mut [(D, T, R)],
) -> usize
    requires { length changes.now ≤ length table.old }
    ensures after { Holds (change_of D.Same.value T.PartialOrder.value R.Same.value) result table.new (those_behind T.PartialOrder.below (map T.PartialOrder.value frontier.now) (map (change_of D.Same.value T.PartialOrder.value R.Same.value) changes.now)) }
    ensures rest { drop result table.new ≡ drop result table.old }
{
    let mut n = 0usize;
    for c in changes {
        if !is_beyond(frontier, &c.1) {
            table[n] = *c;
            n += 1;
        }
    }
    n
}

// Publishes the held changes behind the lower edge where that differs from the reported frontier,
// and reports the edge.  Tells how many changes went out and how many times the edge has, if any.
// The tables come one by one: a call by `&mut` on a struct with two or more type parameters that holds
// `&mut` slices is not covered.
pub(crate) fn publish<D: Same + Copy, T: PartialOrder + Copy, R: Same + Copy>(
    edge: &[T],
    reported: &mut [T],
    times: usize,
    held: &mut [(D, T, R)],
    len: usize,
    published: &mut [(D, T, R)],
    told: &mut [T],
) -> Option<(usize, usize)>
    requires { (length edge.now ≤ frontier_size) × (times ≤ frontier_size) × (frontier_size ≤ length reported.old) × (len ≤ reader_changes) × (reader_changes ≤ length held.old) × (reader_changes ≤ length published.old) × (frontier_size ≤ length told.old) }
    ensures { LetsOut T.PartialOrder.below T.PartialOrder.value (change_of D.Same.value T.PartialOrder.value R.Same.value) result (map T.PartialOrder.value edge.now) times len reported.old reported.new held.old held.new published.old published.new told.old told.new }
{
    if antichain_equal(edge, &reported[0..times]) {
        return None;
    }
    let all = &held[..];
    let n = copy_behind(&all[0..len], edge, published);
    keep_beyond(held, len, edge);
    let m = edge.len();
    copy_entries(edge, reported, m);
    copy_entries(edge, told, m);
    Some((n, m))
}
