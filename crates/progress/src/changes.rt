// Changes taken in: which of a message's are new to a reader, and what they do to its counts.
ghost use Rattle.std.specs.Prelude.{◌≡◌, ◌≤◌, not, ◌&&◌, ◌++◌, map, length};
ghost use Rattle.questions.specs.Answers.{Answered};
ghost use Rattle.frontier.specs.Frontiers.{beyond};
ghost use Rattle.frontier.specs.Counts.{added_all, room};
ghost use Rattle.frontier.specs.Tables.{in_use, Holds, table_asks, counted};
ghost use Rattle.capture.specs.Kinds.{kinds_by};
ghost use Rattle.capture.specs.Messages.{alike as alike_changes, has, fresh};
ghost use Rattle.capture.specs.Sizes.{reader_counts};
ghost use Rattle.capture.specs.Statements.{lowered};
ghost use Rattle.capture.specs.Views.{change_of};

use crate::COUNTS_SIZE;
use frontier::{is_beyond, steps};
use lattice::{PartialOrder, Same, Timestamp, same_time};
use questions::Refusal;

// Whether two changes are the same, in data, time and amount.
fn is_alike<D: Same, T: Timestamp, R: Same>(one: &(D, T, R), other: &(D, T, R)) -> bool
    ensures { result ≡ alike_changes (kinds_by D.Same T.Timestamp R.Same) (change_of D.Same.value T.PartialOrder.value R.Same.value one.now) (change_of D.Same.value T.PartialOrder.value R.Same.value other.now) }
{
    one.0.same(&other.0) && same_time(&one.1, &other.1) && one.2.same(&other.2)
}

// Whether the change stands in the list.
fn is_held<D: Same, T: Timestamp, R: Same>(list: &[(D, T, R)], change: &(D, T, R)) -> bool
    ensures { result ≡ has (kinds_by D.Same T.Timestamp R.Same) (map (change_of D.Same.value T.PartialOrder.value R.Same.value) list.now) (change_of D.Same.value T.PartialOrder.value R.Same.value change.now) }
{
    list.iter().any(|e| is_alike(e, change))
}

// Lowers the count of each change's time by 1, in a table of counts of which the first `len` are in
// use, and tells how many it has then.  A refusal leaves what was lowered.
pub fn lower_counts<D: Same, T: PartialOrder + Copy, R: Same>(
    table: &mut [(T, i64)],
    len: usize,
    changes: &[(D, T, R)],
) -> Result<usize, Refusal>
    ensures { Answered result
        (table_asks reader_counts 11 (length table.old) len (room T.PartialOrder.below reader_counts (in_use (counted T.PartialOrder.value) len table.old) (lowered (map (change_of D.Same.value T.PartialOrder.value R.Same.value) changes.now))))
        (λ n. Holds (counted T.PartialOrder.value) n table.new (added_all T.PartialOrder.below (in_use (counted T.PartialOrder.value) len table.old) (lowered (map (change_of D.Same.value T.PartialOrder.value R.Same.value) changes.now))))
        (Unit {0}) }
{
    steps::update_all(table, len, COUNTS_SIZE, changes.iter().map(|c| (c.1, -1)))
}

// Whether a change is beyond the frontier, and the same as none that is held or new.
fn is_fresh<D: Same, T: Timestamp, R: Same>(
    change: &(D, T, R),
    frontier: &[T],
    held: &[(D, T, R)],
    new: &[(D, T, R)],
) -> bool
    ensures { result ≡ (beyond T.PartialOrder.below (map T.PartialOrder.value frontier.now) (change_of D.Same.value T.PartialOrder.value R.Same.value change.now).time && not (has (kinds_by D.Same T.Timestamp R.Same) (map (change_of D.Same.value T.PartialOrder.value R.Same.value) held.now ++ map (change_of D.Same.value T.PartialOrder.value R.Same.value) new.now) (change_of D.Same.value T.PartialOrder.value R.Same.value change.now))) }
{
    if is_held(held, change) {
        return false;
    }
    if is_held(new, change) {
        return false;
    }
    is_beyond(frontier, &change.1)
}

// Puts the changes of a message that are new to a reader into a table, in their order, and tells how
// many they are.  Counted by hand: whether a change is new is asked of those written before it.
pub fn take_fresh<D: Same + Copy, T: Timestamp + Copy, R: Same + Copy>(
    table: &mut [(D, T, R)],
    changes: &[(D, T, R)],
    frontier: &[T],
    held: &[(D, T, R)],
) -> usize
    requires { length changes.now ≤ length table.old }
    ensures within { result ≤ length changes.now }
    ensures after { in_use (change_of D.Same.value T.PartialOrder.value R.Same.value) result table.new ≡ fresh (kinds_by D.Same T.Timestamp R.Same) (map T.PartialOrder.value frontier.now) (map (change_of D.Same.value T.PartialOrder.value R.Same.value) held.now) (map (change_of D.Same.value T.PartialOrder.value R.Same.value) changes.now) }
{
    let mut n = 0usize;
    for c in changes {
        let all = &table[..];
        if is_fresh(c, frontier, held, &all[0..n]) {
            table[n] = *c;
            n += 1;
        }
    }
    n
}
