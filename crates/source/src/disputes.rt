// Changes that have the data and time of another, and another amount.
ghost use Rattle.std.specs.Prelude.{◌≡◌, not, ◌&&◌, ◌++◌, map};
ghost use Rattle.frontier.specs.Frontiers.{beyond};
ghost use Rattle.capture.specs.Kinds.{kinds_by};
ghost use Rattle.capture.specs.Messages.{coincide};
ghost use Rattle.capture.specs.Prompt.{disputed, undisputed};
ghost use Rattle.capture.specs.Views.{change_of};

use frontier::is_beyond;
use lattice::{PartialOrder, Same, Timestamp, same_time};

// Whether two changes have the same data and time, and different amounts.
fn differ_in_amount<D: Same, T: Timestamp, R: Same>(one: &(D, T, R), other: &(D, T, R)) -> bool
    ensures { result ≡ (coincide (kinds_by D.Same T.Timestamp R.Same) (change_of D.Same.value T.PartialOrder.value R.Same.value one.now) (change_of D.Same.value T.PartialOrder.value R.Same.value other.now) && not (R.Same.alike (R.Same.value one.now.2) (R.Same.value other.now.2))) }
{
    one.0.same(&other.0) && same_time(&one.1, &other.1) && !one.2.same(&other.2)
}

// Whether some change of the list has the data and time of the change, and another amount.
fn is_disputed<D: Same, T: Timestamp, R: Same>(list: &[(D, T, R)], change: &(D, T, R)) -> bool
    ensures { result ≡ disputed (kinds_by D.Same T.Timestamp R.Same) (map (change_of D.Same.value T.PartialOrder.value R.Same.value) list.now) (change_of D.Same.value T.PartialOrder.value R.Same.value change.now) }
{
    list.iter().any(|e| differ_in_amount(e, change))
}

// Whether a change is beyond the frontier, and disputed by a pending or an earlier one.
fn is_disputed_beyond<D: Same, T: Timestamp, R: Same>(
    change: &(D, T, R),
    frontier: &[T],
    pending: &[(D, T, R)],
    earlier: &[(D, T, R)],
) -> bool
    ensures { result ≡ (beyond T.PartialOrder.below (map T.PartialOrder.value frontier.now) (T.PartialOrder.value change.now.1) && disputed (kinds_by D.Same T.Timestamp R.Same) (map (change_of D.Same.value T.PartialOrder.value R.Same.value) pending.now ++ map (change_of D.Same.value T.PartialOrder.value R.Same.value) earlier.now) (change_of D.Same.value T.PartialOrder.value R.Same.value change.now)) }
{
    if is_disputed(pending, change) {
        return is_beyond(frontier, &change.1);
    }
    if is_disputed(earlier, change) {
        return is_beyond(frontier, &change.1);
    }
    false
}

// Whether no change beyond the frontier is disputed by a pending or an earlier one, as question 8
// asks.
// A `for` over places: tried as `enumerate().all(..)`, where the answer's tie to the meaning stayed open.
pub(crate) fn is_undisputed<D: Same, T: Timestamp, R: Same>(
    changes: &[(D, T, R)],
    frontier: &[T],
    pending: &[(D, T, R)],
) -> bool
    ensures { result ≡ undisputed (kinds_by D.Same T.Timestamp R.Same) (map T.PartialOrder.value frontier.now) (map (change_of D.Same.value T.PartialOrder.value R.Same.value) pending.now) (map (change_of D.Same.value T.PartialOrder.value R.Same.value) changes.now) }
{
    for (i, c) in changes.iter().enumerate() {
        if is_disputed_beyond(c, frontier, pending, &changes[0..i]) {
            return false;
        }
    }
    true
}
