// Parting the counts of a sender: those that a statement announces, and those that stay.
ghost use Rattle.std.specs.Prelude.{◌≡◌, ◌≤◌, not, ◌&&◌, [], ◌∷◌, map, length, nat_le};
ghost use Rattle.questions.specs.Answers.{Answered};
ghost use Rattle.frontier.specs.Frontiers.{leq};
ghost use Rattle.frontier.specs.Tables.{in_use, Holds, counted};
ghost use Rattle.capture.specs.Sizes.{largest_count};
ghost use Rattle.capture.specs.Statements.{small};
ghost use Rattle.capture.specs.Sender.{told, announced, retained, some};
ghost use Rattle.capture.specs.Views.{count_of};

use crate::counting::is_small;
use frontier::entries::retain;
use frontier::{antichain_less_equal, is_beyond};
use lattice::PartialOrder;
use questions::Refusal;

// Whether a list moves a frontier on, as question 4 asks.
pub(crate) fn advances<T: PartialOrder>(frontier: &[T], list: &[T]) -> bool
    ensures { result ≡ (some (map T.value list.now) && (leq T.below (map T.value frontier.now) (map T.value list.now) && not (leq T.below (map T.value list.now) (map T.value frontier.now)))) }
{
    !list.is_empty()
        && antichain_less_equal(frontier, list)
        && !antichain_less_equal(list, frontier)
}

// A count as it is announced, a negative one as 0, where it is not too large.
fn tell(count: i64) -> Result<u32, Refusal>
    ensures { Answered result ((nat_le (told count) largest_count, 5) ∷ []) (λ n. n ≡ told count) (Unit {0}) }
{
    if !is_small(count) {
        return Err(Refusal::LargeCount);
    }
    Ok(count.max(0) as u32)
}

// Writes the counts that a statement with this upper list announces, where none is too large, and
// tells how many there are.
pub(crate) fn announce<T: PartialOrder + Copy>(
    counts: &[(T, i64)],
    upper: &[T],
    table: &mut [(T, u32)],
) -> Result<usize, Refusal>
    requires { length counts.now ≤ length table.old }
    ensures { Answered result
        ((small (announced T.below (map T.value upper.now) (map (counted T.value) counts.now)), 5) ∷ [])
        (λ n. Holds (count_of T.value) n table.new (announced T.below (map T.value upper.now) (map (counted T.value) counts.now)))
        (Unit {0}) }
{
    // Counted by hand: after a chain that writes through its closure nothing is known of the table.
    let mut n = 0usize;
    for c in counts {
        if !is_beyond(upper, &c.0) {
            let count = tell(c.1)?;
            table[n] = (c.0, count);
            n += 1;
        }
    }
    Ok(n)
}

// Keeps those of the first `len` counts whose times are beyond the list, and tells how many they are.
// One line over `retain`, as that for changes: where an entry has its time is all that differs.
pub(crate) fn keep_beyond<T: PartialOrder + Copy>(
    counts: &mut [(T, i64)],
    len: usize,
    list: &[T],
) -> usize
    requires { len ≤ length counts.old }
    ensures within { result ≤ len }
    ensures after { Holds (counted T.value) result counts.new (retained T.below (map T.value list.now) (in_use (counted T.value) len counts.old)) }
{
    retain(counts, len, |e| is_beyond(list, &e.0))
}
