// The lower edge, which is the progress frontier with the times at which announced changes are
// missing, and the changes beyond it.
ghost use Rattle.std.specs.Prelude.{◌≡◌, ◌≤◌, map, length};
ghost use Rattle.questions.specs.Answers.{Answered};
ghost use Rattle.frontier.specs.Counts.{positives};
ghost use Rattle.frontier.specs.Frontiers.{inserted_all, fits};
ghost use Rattle.frontier.specs.Tables.{in_use, Holds, frontier_asks, frontier_size, counted};
ghost use Rattle.capture.specs.Messages.{those_beyond};
ghost use Rattle.capture.specs.Views.{change_of};

use frontier::{FRONTIER_SIZE, entries, is_beyond, steps};
use lattice::{PartialOrder, Same};
use questions::Refusal;

// Inserts each time of positive count, in stored order, into the frontier that stands in the first
// `len` entries, and tells how many times it has then.  A refusal leaves what was inserted.
fn extend_by_missing<T: PartialOrder + Copy>(
    table: &mut [T],
    len: usize,
    counts: &[(T, i64)],
) -> Result<usize, Refusal>
    ensures { Answered result
        (frontier_asks (length table.old) len (fits T.below frontier_size (in_use T.value len table.old) (positives (map (counted T.value) counts.now))))
        (λ n. Holds T.value n table.new (inserted_all T.below (in_use T.value len table.old) (positives (map (counted T.value) counts.now))))
        (Unit {0}) }
{
    let missing = counts.iter().filter(|c| c.1 > 0).map(|c| c.0);
    steps::insert_all(table, len, missing)
}

// Makes the lower edge of a progress frontier and counts in a table, and tells how many times it has.
// A refusal leaves what was inserted.
pub fn lower_edge<T: PartialOrder + Copy>(
    frontier: &[T],
    counts: &[(T, i64)],
    edge: &mut [T],
) -> Result<usize, Refusal>
    ensures { Answered result
        (frontier_asks (length edge.old) (length frontier.now) (fits T.below frontier_size (map T.value frontier.now) (positives (map (counted T.value) counts.now))))
        (λ n. Holds T.value n edge.new (inserted_all T.below (map T.value frontier.now) (positives (map (counted T.value) counts.now))))
        (Unit {0}) }
{
    let len = frontier.len();
    if len > FRONTIER_SIZE || edge.len() < FRONTIER_SIZE {
        return Err(Refusal::ShortTable);
    }
    entries::copy_entries(frontier, edge, len);
    extend_by_missing(edge, len, counts)
}

// Keeps those of the first `len` changes that are beyond the frontier, in their order, and tells how
// many they are.
pub fn keep_beyond<D: Same + Copy, T: PartialOrder + Copy, R: Same + Copy>(
    changes: &mut [(D, T, R)],
    len: usize,
    frontier: &[T],
) -> usize
    requires { len ≤ length changes.old }
    ensures within { result ≤ len }
    ensures after { Holds (change_of D.Same.value T.PartialOrder.value R.Same.value) result changes.new (those_beyond T.PartialOrder.below (map T.PartialOrder.value frontier.now) (in_use (change_of D.Same.value T.PartialOrder.value R.Same.value) len changes.old)) }
{
    entries::retain(changes, len, |c| is_beyond(frontier, &c.1))
}
