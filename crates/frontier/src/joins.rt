// The join and the meet of two lists of times, which are frontiers.
//
// Both are made in a scratch table first, so that a refusal writes nothing into the other; of the
// two tables the shorter counts for question 1.  They are two functions, since a join asks more of its
// times than a meet, and the step that fills the scratch table is all that differs.
ghost use Rattle.std.specs.Prelude.{◌≡◌, min, [], ◌++◌, map, length, drop};
ghost use Rattle.questions.specs.Answers.{Answered};
ghost use Rattle.frontier.specs.Frontiers.{fits, pairwise, join, meet};
ghost use Rattle.frontier.specs.Laws.{JoinKeeps, MeetKeeps};
ghost use Rattle.frontier.specs.Tables.{Holds, frontier_asks, frontier_size};

use crate::{FRONTIER_SIZE, entries, steps};
use lattice::{Lattice, PartialOrder};
use questions::Refusal;

// The frontier of the joins of each time of the one list with each of the other, the one list
// outermost.  Tells how many times it has; entries past those are left alone.
pub fn antichain_join_into<T: Lattice + Copy>(
    one: &[T],
    other: &[T],
    upper: &mut [T],
    scratch: &mut [T],
) -> Result<usize, Refusal>
    ensures answer { Answered result
        (frontier_asks (min (length upper.old) (length scratch.old)) 0 (fits T.PartialOrder.below frontier_size [] (pairwise T.joined (map T.PartialOrder.value one.now) (map T.PartialOrder.value other.now))))
        (λ n. Holds T.PartialOrder.value n upper.new (join T.PartialOrder.below T.joined (map T.PartialOrder.value one.now) (map T.PartialOrder.value other.now)) × (drop n upper.new ≡ drop n upper.old))
        (upper.new ≡ upper.old) }
    ensures scratch { drop frontier_size scratch.new ≡ drop frontier_size scratch.old }
    ensures law { JoinKeeps T.PartialOrder.below T.joined }
{
    if upper.len() < FRONTIER_SIZE || scratch.len() < FRONTIER_SIZE {
        return Err(Refusal::ShortTable);
    }
    let n = steps::join_into(one, other, scratch)?;
    entries::copy_entries(scratch, upper, n);
    Ok(n)
}

// The frontier of the times of the one list, then of the other.  Tells how many times it has;
// entries past those are left alone.
pub fn antichain_meet<T: PartialOrder + Copy>(
    one: &[T],
    other: &[T],
    upper: &mut [T],
    scratch: &mut [T],
) -> Result<usize, Refusal>
    ensures answer { Answered result
        (frontier_asks (min (length upper.old) (length scratch.old)) 0 (fits T.below frontier_size [] (map T.value one.now ++ map T.value other.now)))
        (λ n. Holds T.value n upper.new (meet T.below (map T.value one.now) (map T.value other.now)) × (drop n upper.new ≡ drop n upper.old))
        (upper.new ≡ upper.old) }
    ensures scratch { drop frontier_size scratch.new ≡ drop frontier_size scratch.old }
    ensures law { MeetKeeps T.below }
{
    if upper.len() < FRONTIER_SIZE || scratch.len() < FRONTIER_SIZE {
        return Err(Refusal::ShortTable);
    }
    let n = steps::meet_into(one, other, scratch)?;
    entries::copy_entries(scratch, upper, n);
    Ok(n)
}
